// The marks that a lent list holds before a call, and whether they are still there after it.

pub const MOST_LENT: usize = 4096; // the places of each list, as many as a script may ask for

pub const LINE: u32 = u32::MAX;

pub const TIME: i64 = i64::MIN;

// Whether the places from one on hold their mark.
pub fn untouched<T: PartialEq + Drop>(list: &[T], from: usize, mark: T) -> bool {
    list.iter().skip(from).all(|place| *place == mark)
}
