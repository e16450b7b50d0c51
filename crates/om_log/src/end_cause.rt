//! The causes that an END tells.

/// The run made a call that exits.
pub const BY_EXIT: u8 = 0;

/// The run was cut.
pub const BY_CUT: u8 = 1;

/// The machine stopped.
pub const BY_STOP: u8 = 2;
