//! What confines a task.

/// The label of a task: no profile, or a profile by its number, each beside the number of the policy that decides for the task.
#[derive(Clone, Copy, Debug, PartialEq, Eq)]
pub enum Label {
    Unconfined(u16),
    Confined(u16, u16),
}
