//! Entries, copied out of the work area.
ghost use Rattle.std.specs.Prelude.{◌≡◌, length};
ghost use Rattle.block_records.specs.Words.{entries_in};

/// Copies entries out of words.
pub fn copy_entries(words: &[[u32; 2]], entries: &mut [(u32, u32)])
    requires { length words.now ≡ length entries.old }
    ensures { entries.new ≡ entries_in words.now }
{
    for (i, pair) in words.iter().enumerate() {
        entries[i] = (*pair).into();
    }
}
