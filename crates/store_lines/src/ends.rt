// Where lines end.
ghost use Rattle.std.specs.Prelude.{◌≡◌, ◌⊎◌, ◌<◌, IfNone, IfSome, length, slice_index, take};
ghost use Rattle.store_lines.specs.Lines.{IsText};

/// The place of the first byte that ends a line or the whole text, a 10 or a 0; None where there is none.
pub fn end_of(bytes: &[u8]) -> Option<usize>
    ensures within { IfSome result (λ n. n < length bytes.now) }
    ensures front { IfSome result (λ n. IsText (take n bytes.now)) }
    ensures ends { IfSome result (λ n. (slice_index bytes.now n ≡ 0) ⊎ (slice_index bytes.now n ≡ 10)) }
    ensures none { IfNone result (IsText bytes.now) }
{
    for (i, b) in bytes.iter().enumerate() {
        if *b == 0 || *b == 10 {
            return Some(i);
        }
    }
    None
}
