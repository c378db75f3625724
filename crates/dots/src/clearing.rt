// Bytes cleared.
ghost use Rattle.std.specs.Prelude.{◌≡◌, length};
ghost use Rattle.dots.specs.Tables.{table};

// Zeros. Not by `fill`, which clones its value into each place: of that LLVM makes no one call.
pub fn clear(line: &mut [u8])
    ensures { line.new ≡ table (length line.old) (λ c. 0) }
{
    for byte in line.iter_mut() {
        *byte = 0;
    }
}
