// A table's places, read one at a time, and the word that says which are used.
#![tactic(auto)]

ghost use Rattle.std.specs.Prelude.{◌≡◌, true, false, ◌&&◌, ◌+◌, ◌-◌, ◌^◌, ◌<◌, eqb};
ghost use Rattle.laws.specs.Bits.{bit};
ghost use Rattle.channel.specs.State.{place_count, number_of};
ghost use Rattle.lookup.specs.Held.{record_at};
ghost use Rattle.lookup.specs.Update.{place_freed};

use channel::{ChannelId, Table, zero_record};

// A place is a number below 32, here and above, and for some functions one that is used or free, which each contract says: a type for it
// would be taken apart at each use of an array, and C passes any word of used marks.

// Place i is used.
pub fn place_used(t: &Table, i: usize) -> bool
    requires { i < place_count }
    ensures { result ≡ bit t.now.used i }
{
    (t.used >> i) % 2 == 1
}

// Place i is used and has the number.
pub fn place_has(t: &Table, i: usize, n: ChannelId) -> bool
    requires { i < place_count }
    ensures { result ≡ bit t.now.used i && eqb (number_of (record_at t.now i)) n.0 }
{
    place_used(t, i) & (t.records[i].sender_channel == n)
}

// The word with the clear bit i set.
pub fn mark(used: u32, i: usize) -> u32
    requires { (i < place_count) × (bit used i ≡ false) }
    ensures { result ≡ used + 2 ^ i }
{
    used + (1u32 << i)
}

// The word with the set bit i cleared.
pub fn unmark(used: u32, i: usize) -> u32
    requires { (i < place_count) × (bit used i ≡ true) }
    ensures { result ≡ used - 2 ^ i }
{
    used - (1u32 << i)
}

// The place is zero and free.
pub fn free(t: &mut Table, place: usize)
    requires { (place < place_count) × (bit t.old.used place ≡ true) }
    ensures { t.new ≡ place_freed t.old place }
{
    t.records[place] = zero_record();
    t.used = unmark(t.used, place);
}
