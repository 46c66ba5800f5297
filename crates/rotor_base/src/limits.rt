//! The limits of the product, and the bound on levels.

/// The most source files of a folder.
pub const MAX_SOURCES: usize = 2_000;
/// The most bytes of a file, and of `rotor.units`.
pub const MAX_FILE_BYTES: u32 = 1_048_576;
/// The most bytes of all sources together.
pub const MAX_TOTAL_BYTES: u32 = 8_388_608;
/// The most bytes of an identifier.
pub const MAX_NAME_BYTES: usize = 255;
/// The deepest nesting after a token.
pub const MAX_NESTING: usize = 256;
/// The greatest weight of one site.
pub const MAX_WEIGHT: u64 = 65_536;
/// The greatest sum of weights over the weighed sites.
pub const MAX_WEIGHT_SUM: u64 = 4_194_304;
/// The greatest running work.
pub const MAX_WORK: u64 = 4_194_304;
/// The greatest opened weight of one unit.
pub const MAX_OPENED: u64 = 4_194_304;
/// The fewest units of `sample`.
pub const MIN_SAMPLE: u32 = 2;
/// The most units of `sample`.
pub const MAX_SAMPLE: u32 = 500;
/// The most lines of a batch.
pub const MAX_BATCH_LINES: u32 = 1_000;
/// The most bytes of a plan.
pub const MAX_PLAN_BYTES: u32 = 16_777_216;

/// The deepest tree or shape that is built, in levels. Past it the answer is want of memory, since each
/// recursion that goes down with a tree or a shape takes stack at each level: 3,000 levels leave 2,700 bytes
/// of an 8 MiB stack for each of them.
pub const MAX_LEVELS: usize = 3_000;
