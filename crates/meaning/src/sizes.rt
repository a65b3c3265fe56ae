// The numbers of the papers that stand for a limit, a width, "none" or "unknown", and the lengths and
// places that follow from them; the definitions have theirs in specs/Sizes.antt and specs/Record.antt,
// and the proofs hold the two together.

pub const MAX_PARTS: u8 = 200;

pub const MAX_VARIABLES: u8 = 32;

pub const MAX_CLOCKS: u8 = 16;

pub const MAX_DEPTH: u8 = 16;

pub const MAX_VALUE: u16 = 250;

// The byte of an estimate that is no value: the variable is unknown.
pub const UNKNOWN_VALUE: u8 = 255;

// How many values a byte has.
pub const BYTE_VALUES: u32 = 256;

// How many bytes a number of parts or a part's number takes, a kind, a number of variables or of clocks,
// an operand, and a time.
pub const NUMBER: usize = 1;

pub const KIND: usize = 1;

pub const COUNT: usize = 1;

pub const OPERAND: usize = 4;

pub const TIME: usize = 4;

// No parent, or no next: the largest part's number.
pub const NO_PART: u8 = 255;

// Where the numbers of variables and of clocks stand, and how long the three sizes are.
pub const VARIABLES_PLACE: usize = NUMBER;

pub const CLOCKS_PLACE: usize = VARIABLES_PLACE + COUNT;

pub const HEADER: usize = CLOCKS_PLACE + COUNT;

// Where a part's end, parent, next and operand stand in its row, and how long the row is.
pub const END_PLACE: usize = KIND;

pub const PARENT_PLACE: usize = END_PLACE + NUMBER;

pub const NEXT_PLACE: usize = PARENT_PLACE + NUMBER;

pub const OPERAND_PLACE: usize = NEXT_PLACE + NUMBER;

pub const ROW: usize = OPERAND_PLACE + OPERAND;

// Room for a byte for each of the most parts.
pub const MAX_MARKS: usize = MAX_PARTS as usize;

// How long the longest file and the longest table are.
pub const MAX_FILE: usize = HEADER + (KIND + OPERAND) * (MAX_PARTS as usize);

pub const MAX_TABLE: usize = HEADER + ROW * (MAX_PARTS as usize);

// Where the fields of a run record begin, and how long the record is.
pub const PHASE_PLACE: usize = 0;

pub const TIME_PLACE: usize = PHASE_PLACE + 1;

pub const ESTIMATE_PLACE: usize = TIME_PLACE + TIME;

pub const STARTED_PLACE: usize = ESTIMATE_PLACE + (MAX_VARIABLES as usize);

pub const STARTS_PLACE: usize = STARTED_PLACE + (MAX_CLOCKS as usize);

pub const MARKS_PLACE: usize = STARTS_PLACE + TIME * (MAX_CLOCKS as usize);

pub const RECORD: usize = MARKS_PLACE + MAX_MARKS;

// A part's mark, and the flag of a clock that is started.
pub const UNMARKED: u8 = 0;

pub const MARKED: u8 = 1;

pub const STARTED: u8 = 1;

// The phases of a run.
pub const WAITING: u8 = 0;

pub const OFFERED: u8 = 1;

pub const FINISHED: u8 = 2;

// Goal bytes that are no value: no GOAL names the variable, and two GOALs differ.
pub const NO_GOAL: u8 = 255;

pub const CONTESTED: u8 = 254;

// Numbers from here on are answers that are no refusal.
pub const ANSWERED: u32 = 256;

// The name in an offer's answer that names no variable: none is contested.
pub const NO_VARIABLE: u8 = 255;
