//! Growth of lists, where there may be no memory for it.
use crate::halt::Halt;

/// Adds the value to the list. Where memory is refused, the run can't be made.
pub fn push<T: Drop>(list: &mut Vec<T>, value: T, halt: &mut Option<Halt>) {
    if list.push(value).is_err() {
        *halt = Some(Halt::Memory);
    }
}
