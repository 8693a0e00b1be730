//! Which program this is: the one place of its version and of the kit that proved it.

/// The version of the program.
pub const VERSION: &str = "0.1.0";

/// The kit that proved it, as `rt version` names it.
pub const KIT: &str = "rattle-kit-13f logic dac8208d650f15bf";
