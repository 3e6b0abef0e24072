// What an analysis knows of each register: an entry that is present or absent, or that no run comes here.
ghost use Rattle.std.specs.Prelude.{◌≡◌, slice_set};
ghost use Rattle.analyses.specs.Entries.{agreed, any_lost, entry_at, joined, merged, rises};

/// An entry for each register.
pub type Registers<T> = [Option<T>; 8];

/// The entries that hold whatever way a run came here; none where no run comes.
pub type Entries<T> = Option<Registers<T>>;

/// The entry of a register.
pub(crate) fn entry<T: Copy>(registers: &Registers<T>, register: u8) -> Option<T>
    ensures { result ≡ entry_at registers.now register }
{
    registers.get(register as usize).copied().flatten()
}

/// Writes the entry of a register.
pub(crate) fn write<T: Copy>(registers: &mut Registers<T>, register: u8, entry: Option<T>)
    ensures { registers.new ≡ slice_set registers.old register entry }
{
    // With `get_mut` the proof doesn't close: what is written through it is not known.
    let place = register as usize;
    if place < registers.len() {
        registers[place] = entry;
    }
}

/// What two entries agree on.
fn agree<T: Copy + PartialEq>(a: Option<T>, b: Option<T>) -> Option<T>
    ensures { result ≡ agreed T.eq a b }
{
    if a == b { a } else { None }
}

/// Keeps what both agree on, and tells whether an entry was lost.
fn keep_agreeing<T: Copy + PartialEq>(ours: &mut Registers<T>, theirs: &Registers<T>) -> bool
    ensures kept { ours.new ≡ merged T.eq ours.old theirs.now }
    ensures lost { result ≡ any_lost T.eq 8 ours.old theirs.now }
{
    let mut lost = false;
    // Over a `zip` with `theirs` an invariant cannot say what has been written.
    for (i, entry) in ours.iter_mut().enumerate() {
        let both = agree(*entry, theirs[i]);
        lost |= entry.is_some() & both.is_none();
        *entry = both;
    }
    lost
}

/// Joins `more` into the fact, and tells whether the fact rose.
pub(crate) fn join<T: Copy + PartialEq>(fact: &mut Entries<T>, more: &Entries<T>) -> bool
    ensures after { fact.new ≡ joined T.eq fact.old more.now }
    ensures rose { result ≡ rises T.eq fact.old more.now }
{
    let Some(theirs) = more else {
        return false;
    };
    match fact {
        Some(ours) => keep_agreeing(ours, theirs),
        None => {
            *fact = *more;
            true
        }
    }
}
