// The bytes of a text by their kinds, and its words.
ghost use Rattle.std.specs.Prelude.{◌≡◌, ◌≤◌};
ghost use Rattle.list_text.specs.Words as spec;

pub fn is_blank(b: u8) -> bool
    ensures { result ≡ spec.is_blank b }
{
    matches!(b, b' ' | b'\t' | b'\r')
}

pub fn is_word_byte(b: u8) -> bool
    ensures { result ≡ spec.is_word_byte b }
{
    !(is_blank(b) || matches!(b, b'\n' | b'#' | b','))
}

// Whether b is skipped, in a comment (c) or not.
pub fn is_skipped(c: bool, b: u8) -> bool
    ensures { result ≡ spec.is_skipped c b }
{
    c || is_blank(b) || matches!(b, b'\n' | b'#')
}

// Whether what stands behind b is in a comment.
pub fn comment_behind(c: bool, b: u8) -> bool
    ensures { result ≡ spec.comment_behind c b }
{
    (c || b == b'#') && b != b'\n'
}

// Two words are the same.
#[inline(always)]
pub fn same_word(w: &[u8], name: &[u8]) -> bool
    ensures { result ≡ spec.same w.now name.now }
{
    w == name
}

// What a word is as a number from 0 to most.
#[tactic(auto, using(crate::proofs::Scanning::value_on, crate::proofs::Scanning::value_other, crate::proofs::Scanning::value_over, crate::proofs::Scanning::value_end), unfolding(list_text::specs::Words::value_up_to, model::specs::Pick::pick))]
pub fn value_up_to(w: &[u8], most: u32) -> Option<u32>
    requires { most ≤ 65535 }
    ensures { result ≡ spec.value_up_to most w.now }
{
    if w.is_empty() {
        return None;
    }
    let mut v: u32 = 0;
    for b in w {
        if !b.is_ascii_digit() {
            return None;
        }
        v = v * 10 + (*b - b'0') as u32;
        if most < v {
            return None;
        }
    }
    Some(v)
}
