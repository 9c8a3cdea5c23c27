//! Why a request can't be made.

/// Why a request can't be made. What is wrong with it comes before want of memory, a bad path before a bad mask.
#[derive(Clone, Copy, Debug, PartialEq, Eq)]
pub enum RequestFault {
    NoMemory,
    /// A path is empty, doesn't begin with `/`, holds a zero byte, or has more than 4,095 bytes.
    BadPath,
    /// The mask is empty, or holds LINK or EXEC, or a bit that is no permission.
    BadMask,
    /// The name is empty, holds a zero byte, or has more than 1,024 bytes.
    BadName,
}
