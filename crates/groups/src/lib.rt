// Which stored frames are of one track and group: a slot for each row of the tags, shared by those that are.
#![tactic(auto)]

ghost use Rattle.std.specs.Prelude.{◌≡◌, true, ◌≤◌, ◌<◌, length, take};
ghost use Rattle.sorting.specs.Sorting.{most, rises};
ghost use Rattle.groups.specs.Groups.{IsSlotted, entry_of, same_key, group_numbers, key_of, IsKeyed, place_of};

use sorting::MOST;

// ---- by a table

// Entries of the table: few keys share one.
const ENTRIES: usize = 2 * MOST;

// How far apart the entries of two tracks are: four tracks share the table evenly.
const TRACK_STEP: usize = ENTRIES / 4;

fn entry_of(track: u32, group: u32) -> usize
    ensures { result ≡ entry_of track group }
{
    (track as usize * TRACK_STEP + group as usize) % ENTRIES
}

fn same_key(a: [u32; 5], b: [u32; 5]) -> bool
    ensures { result ≡ same_key a b }
{
    (a[0] == b[0]) & (a[4] == b[4])
}

// A row has the place of the first one of its track and group. False where two keys share an entry.
fn slots_by_table(tags: &[[u32; 5]], first: usize, n: usize, slots: &mut [usize]) -> bool
    requires { (first ≤ n) × (n ≤ length tags.now) × (n ≤ most) × (length slots.old ≡ most) }
    ensures { result ≡ true → IsSlotted tags.now first n slots.new }
{
    let mut seen = [0usize; ENTRIES];
    for i in first..n {
        let tag = tags[i];
        let entry = entry_of(tag[0], tag[4]);
        let found = seen[entry];
        if found == 0 {
            slots[i] = i;
            seen[entry] = i + 1;
        } else {
            let place = found - 1;
            let other = tags[place];
            if !same_key(other, tag) {
                return false;
            }
            slots[i] = place;
        }
    }
    true
}

// ---- by a sort

// How many group numbers there are.
const GROUP_NUMBERS: u64 = 4294967296;

fn key_of(track: u32, group: u32) -> u64
    ensures { (result ≡ key_of track group) × (group < group_numbers) }
{
    u64::from(track) * GROUP_NUMBERS + u64::from(group)
}

fn keys_of(tags: &[[u32; 5]], first: usize, n: usize) -> [u64; MOST]
    requires { (first ≤ n) × (n ≤ length tags.now) × (n ≤ most) }
    ensures { IsKeyed tags.now first n result }
{
    let mut keys = [0u64; MOST];
    for i in first..n {
        let tag = tags[i];
        keys[i - first] = key_of(tag[0], tag[4]);
    }
    keys
}

// How many of the numbers, which rise, are below x.
fn place_of(a: &[u64], x: u64) -> usize
    requires { rises a.now ≡ true }
    ensures { result ≡ place_of x a.now }
{
    a.partition_point(|y| *y < x)
}

// A row has the place of its key among all of them in rising order.
fn slots_by_sort(tags: &[[u32; 5]], first: usize, n: usize, slots: &mut [usize])
    requires { (first ≤ n) × (n ≤ length tags.now) × (n ≤ most) × (length slots.old ≡ most) }
    ensures { IsSlotted tags.now first n slots.new }
{
    let mut keys = keys_of(tags, first, n);
    let mut other = [0u64; MOST];
    let m = n - first;
    sorting::sort(&mut keys, &mut other, m);
    for i in first..n {
        let tag = tags[i];
        let k = key_of(tag[0], tag[4]);
        let p = place_of(&keys[..m], k);
        slots[i] = p;
    }
}

// ---- either way

// Slots of the rows from the first up to n, in room that the caller lends. Groups that follow one another are told apart by the table, in
// one pass; those that it cannot tell apart, by the sort.
pub fn fill_slots(tags: &[[u32; 5]], first: usize, n: usize, slots: &mut [usize])
    requires { (first ≤ n) × (n ≤ length tags.now) × (n ≤ most) × (length slots.old ≡ most) }
    ensures { IsSlotted tags.now first n slots.new }
{
    if !slots_by_table(tags, first, n, slots) {
        slots_by_sort(tags, first, n, slots);
    }
}

// The same by value.
pub fn slots_of(tags: &[[u32; 5]], first: usize, n: usize) -> [usize; MOST]
    requires { (first ≤ n) × (n ≤ length tags.now) × (n ≤ most) }
    ensures { IsSlotted tags.now first n result }
{
    let mut slots = [0usize; MOST];
    fill_slots(tags, first, n, &mut slots);
    slots
}
