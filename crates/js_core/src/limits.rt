//! The limits of what is read, run and saved.

/// No tree that is read is higher.
pub const HEIGHT_LIMIT: u64 = 440;

/// No script of a plain page is higher.
pub const PLAIN_HEIGHT_LIMIT: u64 = 200;

/// No script of a form page is higher.
pub const FORM_HEIGHT_LIMIT: u64 = 420;

/// No function of a form page that is no factory is higher as an expression.
pub const FUNCTION_HEIGHT_LIMIT: u64 = 400;

/// No more functions are active at a time.
pub const DEPTH_LIMIT: u64 = 1_000;

/// No script at load and no host event takes more steps.
pub const STEP_LIMIT: u64 = 1_000_000;

/// No string has more units.
pub const TEXT_LIMIT: u64 = 1_048_576;

/// No page file has more bytes.
pub const PAGE_LIMIT: u64 = 16_777_216;

/// No event file has more bytes.
pub const EVENT_FILE_LIMIT: u64 = 4_194_304;

/// No event file has more events.
pub const EVENT_LIMIT: u32 = 100_000;

/// No more timers are live at a time.
pub const TIMER_LIMIT: usize = 65_536;

/// No tick is longer, in milliseconds.
pub const TICK_LIMIT: u64 = 1_000_000_000;

/// No saved heap has more things.
pub const SAVED_THINGS_LIMIT: u64 = 75_000;

/// No saved heap has more bytes of text.
pub const SAVED_TEXT_LIMIT: u64 = 4_194_304;
