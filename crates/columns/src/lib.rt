// What a row of each column is, and what each of its numbers says (01, "What comes back"). The names are those of include/dogma.h.
#![tactic(auto)]

// The most objects of a fit.
pub const OBJECTS: usize = 1024;

// states: one row for each object.
pub const STATE_WIDTH: usize = 2;

pub type StateRow = [u32; STATE_WIDTH];

pub type States = [StateRow; OBJECTS];

pub const STATE: usize = 0;

pub const MAX_STATE: usize = 1;

// Of each of the ten tables of a sheet the count of its records and its byte offset.
pub type TablePair = [u32; 2];

pub const PAIR_COUNT: usize = 0;

pub const PAIR_OFFSET: usize = 1;

pub type TablePairs = [TablePair; 10];

// Of each object its first row in list 2, and the row past its last.
pub type Stretches = [[u32; 2]; OBJECTS];

pub const STRETCH_FIRST: usize = 0;

pub const STRETCH_END: usize = 1;

// Marks of the attributes that may have a limit, by their ids modulo 1,024.
pub const LIMIT_MARKS: usize = 1024;

pub type Limits = [u32; LIMIT_MARKS];

// Places told of the book's records, by ids modulo so many: of an effect and of the first of a type's effects; of an attribute.
// What is told may be wrong: it is tested where it is used.
pub const EFFECT_SLOTS: usize = 1024;

pub type EffectPlaces = [[u16; 2]; EFFECT_SLOTS];

pub const PLACE_EFFECT: usize = 0;

pub const PLACE_TYPE: usize = 1;

pub const ATTRIBUTE_SLOTS: usize = 4096;

pub type AttributePlaces = [u16; ATTRIBUTE_SLOTS];

// List 1, collected effects.
pub const COLLECTED_WIDTH: usize = 14;

pub type CollectedRow = [u32; COLLECTED_WIDTH];

pub const COLLECTED_ORIGIN: usize = 0;

pub const COLLECTED_EFFECT: usize = 1;

pub const COLLECTED_SOURCE: usize = 2;

pub const COLLECTED_SOURCE_CATEGORY: usize = 3;

pub const COLLECTED_MODIFYING_ATTRIBUTE: usize = 4;

pub const COLLECTED_BUFF: usize = 5;

pub const COLLECTED_FUNC: usize = 6;

pub const COLLECTED_SKILL_OR_GROUP: usize = 7;

pub const COLLECTED_OPERATOR: usize = 8;

pub const COLLECTED_SOURCE_QUANTITY: usize = 9;

pub const COLLECTED_TARGET: usize = 10;

pub const COLLECTED_TARGET_ATTRIBUTE: usize = 11;

pub const COLLECTED_RESISTANCE_GIVEN: usize = 12;

pub const COLLECTED_RESISTANCE: usize = 13;

// List 2, attribute rows.
pub const ROW_WIDTH: usize = 6;

pub type AttributeRow = [u32; ROW_WIDTH];

pub const ROW_OBJECT: usize = 0;

pub const ROW_ATTRIBUTE: usize = 1;

pub const ROW_FIRST_ENTRY: usize = 2;

pub const ROW_ENTRY_COUNT: usize = 3;

pub const ROW_FIRST_SOURCE: usize = 4;

pub const ROW_SOURCE_COUNT: usize = 5;

// List 3, entries. While hits are counted, numbers 1 and 2 keep a hit's effect and object. Until `entries` writes them out, number 0 is
// a hit's effect and number 1 the effect at a place.
pub const ENTRY_WIDTH: usize = 12;

pub type EntryRow = [u32; ENTRY_WIDTH];

pub const ENTRY_KEPT_EFFECT: usize = 1;

pub const ENTRY_KEPT_OBJECT: usize = 2;

pub const ENTRY_HIT: usize = 0;

pub const ENTRY_PLACED: usize = 1;

pub const ENTRY_ORIGIN: usize = 0;

pub const ENTRY_EFFECT: usize = 1;

pub const ENTRY_SOURCE: usize = 2;

pub const ENTRY_SOURCE_CATEGORY: usize = 3;

pub const ENTRY_MODIFYING_ATTRIBUTE: usize = 4;

pub const ENTRY_BUFF: usize = 5;

pub const ENTRY_OPERATOR: usize = 6;

pub const ENTRY_PENALTY: usize = 7;

pub const ENTRY_QUANTITY: usize = 8;

pub const ENTRY_RESISTANCE_GIVEN: usize = 9;

pub const ENTRY_RESISTANCE: usize = 10;

pub const ENTRY_COLLECTED: usize = 11;

// List 4, plain effects.
pub const PLAIN_WIDTH: usize = 2;

pub type PlainRow = [u32; PLAIN_WIDTH];

pub const PLAIN_OBJECT: usize = 0;

pub const PLAIN_EFFECT: usize = 1;

// List 5, source rows, and the two floats of one.
pub const SOURCE_WIDTH: usize = 11;

pub type SourceRow = [u32; SOURCE_WIDTH];

pub const SOURCE_FROM: usize = 0;

pub const SOURCE_OBJECT_OR_BUFF: usize = 1;

pub const SOURCE_EFFECT_GIVEN: usize = 2;

pub const SOURCE_EFFECT: usize = 3;

pub const SOURCE_ATTRIBUTE_GIVEN: usize = 4;

pub const SOURCE_ATTRIBUTE: usize = 5;

pub const SOURCE_OPERATOR: usize = 6;

pub const SOURCE_QUANTITY: usize = 7;

pub const SOURCE_PENALTY_GIVEN: usize = 8;

pub const SOURCE_APPLIED: usize = 9;

pub const SOURCE_STATE: usize = 10;

pub const SOURCE_FLOATS: usize = 2;

pub type SourceFloats = [f64; SOURCE_FLOATS];

pub const SOURCE_VALUE: usize = 0;

pub const SOURCE_PENALTY: usize = 1;

// The copies of a penalised value that are weighed: their values, and the source row of each.
pub const COPIES: usize = 8;

pub type CopyValues = [f64; COPIES];

pub type CopySources = [u32; COPIES];

// A mark for each operator, at its code.
pub const OPERATORS: usize = 9;

pub type OperatorMarks = [u32; OPERATORS];

// The tables of a sheet that are counted by their numbers.
pub const TABLE_ATTRIBUTES: usize = 1;

pub const TABLE_EFFECTS: usize = 2;

pub const TABLE_TYPE_EFFECTS: usize = 4;

pub const TABLE_OBJECTS: usize = 6;

pub const TABLE_BUFFS: usize = 9;

pub const TABLE_ASKS: usize = 10;

// Of each object a number: how many hits it has, or a place in list 3.
pub type Places = [u32; OBJECTS];

// The key of a hit: its object and its attribute.
pub type HitKey = [u32; 2];

pub const KEY_OBJECT: usize = 0;

pub const KEY_ATTRIBUTE: usize = 1;

// One pool for several pilots: of each its first row and its number of rows, in each of the five lists.
pub const PILOTS: usize = 16;

pub const LISTS: usize = 5;

pub type PoolStretch = [u32; 2];

pub const POOL_FIRST: usize = 0;

pub const POOL_LENGTH: usize = 1;

pub type PilotStretches = [PoolStretch; LISTS];

pub type PoolStretches = [PilotStretches; PILOTS];

// Of each list the rows that the pool has.
pub type PoolRooms = [usize; LISTS];

// The states of every pilot's objects.
pub type PilotStates = [States; PILOTS];

// The pairs of a book or of a fit.
pub type FilePairs = [TablePair; 5];

// ---- Tables as they are lent to be written: a row of each in the order of document 01's fields, its float in a column beside. A signed
// number is its 32 bits.

// A sheet's header behind the pairs: three category numbers, depth, recording. A book has the first three, a fit the last two.
pub type SheetNumbers = [u32; 5];

pub type BookNumbers = [u32; 3];

pub type FitNumbers = [u32; 2];

pub const SHEET_DEPTH: usize = 3;

pub const SHEET_RECORDING: usize = 4;

pub const FIT_DEPTH: usize = 0;

pub const FIT_RECORDING: usize = 1;

// Table 1, attributes; the default is beside.
pub type AttributeFields = [u32; 4];

pub const ATTRIBUTE_ID: usize = 0;

pub const ATTRIBUTE_FLAGS: usize = 1;

pub const ATTRIBUTE_MIN: usize = 2;

pub const ATTRIBUTE_MAX: usize = 3;

// Table 2, effects.
pub type EffectFields = [u32; 6];

pub const EFFECT_ID: usize = 0;

pub const EFFECT_CATEGORY: usize = 1;

pub const EFFECT_RESISTANCE: usize = 2;

pub const EFFECT_USAGE_CHANCE: usize = 3;

pub const EFFECT_FIRST_MODIFIER: usize = 4;

pub const EFFECT_MODIFIER_COUNT: usize = 5;

// Table 3, modifiers.
pub type ModifierFields = [u32; 7];

// Table 4, effects of types.
pub type TypeEffectFields = [u32; 3];

pub const TYPE_EFFECT_TYPE: usize = 0;

pub const TYPE_EFFECT_EFFECT: usize = 1;

pub const TYPE_EFFECT_DEFAULT: usize = 2;

// Table 5, buff collections.
pub type BuffCollectionFields = [u32; 4];

pub const BUFF_COLLECTION_ID: usize = 0;

pub const BUFF_COLLECTION_OPERATION: usize = 1;

pub const BUFF_COLLECTION_FIRST_MODIFIER: usize = 2;

pub const BUFF_COLLECTION_MODIFIER_COUNT: usize = 3;

// Table 6, objects.
pub type ObjectFields = [u32; 17];

pub const OBJECT_KIND: usize = 0;

pub const OBJECT_TYPE: usize = 1;

pub const OBJECT_GROUP: usize = 2;

pub const OBJECT_CATEGORY: usize = 3;

pub const OBJECT_SLOT: usize = 4;

pub const OBJECT_QUANTITY: usize = 5;

pub const OBJECT_STATE: usize = 6;

pub const OBJECT_MAX_STATE: usize = 7;

pub const OBJECT_FLAGS: usize = 8;

pub const OBJECT_MUTATION_BASE: usize = 9;

pub const OBJECT_PROJECTED_EFFECT: usize = 10;

pub const OBJECT_FIRST_BASE: usize = 11;

pub const OBJECT_BASE_COUNT: usize = 12;

pub const OBJECT_FIRST_ABILITY: usize = 13;

pub const OBJECT_ABILITY_COUNT: usize = 14;

pub const OBJECT_FIRST_SIDE_EFFECT: usize = 15;

pub const OBJECT_SIDE_EFFECT_COUNT: usize = 16;

// Table 10, asks. Tables 7 and 9 are a number and a float, table 8 is a number.
pub type AskFields = [u32; 2];

pub const ASK_OBJECT: usize = 0;

pub const ASK_ATTRIBUTE: usize = 1;

// The pairs of five tables, one after another.
pub type FivePairs = [u32; 10];
