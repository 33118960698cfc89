// Where tables lie in the slices that hold them. One slice holds all that is drawn of the rules in words, one
// all that is drawn of them in bytes; so a question takes few arguments, and a batch hands both on.
#![tactic(auto)]

// In words: the masks of left sides, which rule precedes which, where the table of each rule starts, where
// its broken bits start, the instants of its interval, and its stratum. The first two are drawn of the rules
// alone; the others each question writes for itself.
pub const LEFT: usize = 0;

pub const FEED: usize = 152;

pub const DRAWN: usize = 280;

pub const FIRST: usize = 280;

pub const STARTS: usize = 344;

pub const ACTIVE: usize = 408;

pub const STRATA: usize = 472;

pub const OUTLINE: usize = 536;

// Within the masks of left sides, from 0 on a word for each coordinate of an object; then one for each of a
// subject, for each mode with a positive sign and with a denial, and for each sign; then those of what is
// starred: subjects, modes with a positive sign and with a denial, and objects.
pub const LEFT_SUBJECTS: usize = 65;

pub const LEFT_MODES: usize = 130;

pub const LEFT_DENIED_MODES: usize = 138;

pub const LEFT_SIGNS: usize = 146;

pub const LEFT_DENIALS: usize = 147;

pub const STARRED_SUBJECTS: usize = 148;

pub const STARRED_MODES: usize = 149;

pub const STARRED_DENIED_MODES: usize = 150;

pub const STARRED_OBJECTS: usize = 151;

// In bytes: the codes of left sides, those of right sides, and the coordinates of subjects and objects.
pub const SIDES: usize = 0;

pub const RIGHT: usize = 256;

pub const SUBJECTS: usize = 512;

pub const OBJECTS: usize = 1536;

pub const COORDINATES: usize = 1666;

// The same filled up to whole words.
pub const PACKED: usize = 1672;

// In words that are handed on to many questions: what is drawn of the rules in words, then the coordinates,
// eight bytes a word, how many coordinates of subjects there are, how many of objects, and which rules are
// choosy; so many in all.
pub const SUBJECT_COUNT: usize = 489;

pub const OBJECT_COUNT: usize = 490;

pub const CHOOSY: usize = 491;

pub const HANDED: usize = 492;
