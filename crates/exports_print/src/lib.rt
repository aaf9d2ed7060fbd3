// Printing a list, for Rust or C to link. It is a library of its own: where the step by value is in the same library, the run loop's judgement is
// compiled as a call, and printing takes up to a third longer.
#![tactic(auto)]

ghost use Rattle.exports_print.specs.Boundary.{PrintExported};

//   uint64_t nevraspu_print(const uint8_t *list, size_t list_len, uint8_t *out, size_t out_len);
// The text of a list, any bytes at all, at the start of out. The answer:
//   a length      of the text, which stands there whole. No text has more than 279,149 bytes, so an out of that size always has the room
//   2^64 - 1      the text does not fit (refusal 15): its lines from the first on stand there, up to the one that has no room
// What is behind the last line written is left as it was. A caller has only to hand in pointers that are good for their lengths, out apart from list.
#[unsafe(no_mangle)]
pub extern "C" fn nevraspu_print(list: &[u8], out: &mut [u8]) -> u64
    ensures { PrintExported list.now out.old out.new result }
{
    listing::put_length(run_list::print(list, out))
}
