// A place in a text that is read, and what is found from there on.
ghost use Rattle.std.specs.Prelude.{◌≡◌, ◌≤◌, ℕ, Bool, length, IfOk};
ghost use Rattle.list_text.specs.Words as spec;

use crate::words::{comment_behind, is_blank, is_skipped, is_word_byte, value_up_to};
use list_text::Number;

// A text, and an offset in it.
#[derive(Clone, Copy)]
pub struct Cursor<'a> {
    pub text: &'a [u8],
    pub at: usize,
    ghost within: { at ≤ length text.now },
}

impl<'a> Cursor<'a> {
    // At another offset of the text.
    pub fn to(self, at: usize) -> Self
        requires { at ≤ length self.text.now }
        ensures { (result.text ≡ self.entry.text) × (result.at ≡ at) }
    {
        Cursor {
            text: self.text,
            at,
        }
    }

    // At the first byte from here on that is not of a kind, or the end.
    fn past<F: Fn(u8) -> bool>(self, of_kind: F) -> Self
        requires callable { F.IsAlwaysCallable of_kind }
        ensures first { (f : ℕ → Bool) → ((b : ℕ) (r : Bool) → F.post of_kind b r → r ≡ f b) → result.at ≡ spec.past f self.entry.text.now self.entry.at }
        ensures on { (result.text ≡ self.entry.text) × (self.entry.at ≤ result.at) }
    {
        match self.text[self.at..].iter().position(|b| !of_kind(*b)) {
            Some(n) => self.to(self.at + n),
            None => self.to(self.text.len()),
        }
    }

    // At the first byte from here on that is not blank, or the end.
    pub fn past_blanks(self) -> Self
        ensures { (result.text ≡ self.entry.text) × (result.at ≡ spec.past spec.is_blank self.entry.text.now self.entry.at) }
    {
        self.past(is_blank)
    }

    // Behind the word that starts here.
    pub fn behind_word(self) -> Self
        ensures { (result.text ≡ self.entry.text) × (result.at ≡ spec.behind_word self.entry.text.now self.entry.at) × (self.entry.at ≤ result.at) }
    {
        self.past(is_word_byte)
    }

    // At the first byte from here on that is not skipped, or the end.
    #[tactic(auto, using(crate::proofs::Scanning::skipped_on, crate::proofs::Scanning::skipped_here, crate::proofs::Scanning::skipped_end), unfolding(list_text::specs::Words::past_skipped))]
    pub fn past_skipped(self) -> Self
        ensures { (result.text ≡ self.entry.text) × (result.at ≡ spec.past_skipped self.entry.text.now self.entry.at) }
    {
        let mut comment = false;
        for i in self.at..self.text.len() {
            let b = self.text[i];
            if !is_skipped(comment, b) {
                return self.to(i);
            }
            comment = comment_behind(comment, b);
        }
        self.to(self.text.len())
    }

    // A number from 0 to most as the next word from here on, on the same line.
    pub fn number_up_to(self, most: u32) -> Number
        requires { most ≤ 65535 }
        ensures value { result ≡ spec.number_at most self.entry.text.now self.entry.at }
        ensures within { IfOk result (λ x. (x.0 ≤ most) × (x.1 ≤ length self.entry.text.now)) }
    {
        let start = self.past_blanks();
        let end = start.behind_word();
        match value_up_to(&self.text[start.at..end.at], most) {
            Some(v) => Ok((v, end.at)),
            None => Err(start.at),
        }
    }
}
