// The types that code and definition share, by the Rust's names, and the constants of attribute_ids.rs, mod.rs and pass_2.rs that the code uses.
// The crate's definitions, document 01, are in specs/; what is proved of them is in proofs/.
#![tactic(auto)]

// Attributes (attribute_ids.rs).
pub const ATTRIBUTE_CAPACITOR_NEED_ID: i32 = 6;

pub const ATTRIBUTE_UPGRADE_LOAD_ID: i32 = 1152;

pub const ATTRIBUTE_REMOTE_RESISTANCE_ID: i32 = 2138;

// requiredSkill1, requiredSkill2, ..
pub const ATTRIBUTE_SKILLS: [i32; 6] = [182, 183, 184, 1285, 1289, 1290];

// Categories (mod.rs). The header gives CATEGORY_MODULE, CATEGORY_SUBSYSTEM and CATEGORY_STRUCTURE_MODULE.
pub const CATEGORY_DRONE: i32 = 18;

pub const CATEGORY_IMPLANT: i32 = 20;

pub const CATEGORY_STRUCTURE: i32 = 65;

pub const CATEGORY_FIGHTER: i32 = 87;

// Ship, Charge, Skill, Implant, Subsystem and Structure (pass_2.rs).
pub const EXEMPT_PENALTY_CATEGORY_IDS: [i32; 6] = [6, 8, 16, 20, 32, 65];

// Kinds of objects, and slots: numbers, since the definition's Item has those of the sheet, which SHAPE tests once a record is read (Shape.object_good).
pub const SHIP: u32 = 0;

pub const MODE: u32 = 1;

pub const CHAR: u32 = 2;

pub const ITEM: u32 = 3;

pub const CHARGE: u32 = 4;

pub const SKILL: u32 = 5;

pub const PROJECTED: u32 = 6;

// Slots of items; 0 is none or another, 2 and 3 are Medium and Low.
pub const HIGH: u32 = 1;

pub const RIG: u32 = 4;

pub const SUBSYSTEM: u32 = 5;

pub const SERVICE: u32 = 6;

pub const DRONE_BAY: u32 = 7;

pub const FIGHTER_TUBE: u32 = 8;

pub const FIGHTER_BAY: u32 = 9;

pub const IMPLANT: u32 = 10;

pub const BOOSTER: u32 = 11;

// item.rs, in the order of the sheet's codes.
#[derive(Clone, Copy)]
pub enum EffectCategory {
    Passive,
    Online,
    Active,
    Overload,
    Target,
    Area,
    Dungeon,
    System,
}

#[derive(Clone, Copy)]
pub enum ItemState {
    Passive,
    Online,
    Active,
    Overload,
    AlwaysOn,
}

// The order in which pass 3 applies them.
#[derive(Clone, Copy)]
pub enum EffectOperator {
    PreAssign,
    PreMul,
    PreDiv,
    ModAdd,
    ModSub,
    PostMul,
    PostDiv,
    PostPercent,
    PostAssign,
}

// Where a modifier comes from, and where its strength is read. Objects go by their number.
#[derive(Clone, Copy)]
pub enum Origin {
    Effect {
        effect_id: i32,
        source: u32,
        source_category: EffectCategory,
        attribute_id: i32,
    },
    Buff {
        buff_id: i32,
        value: f64,
    },
}

// Whom a modifier touches.
#[derive(Clone, Copy)]
pub enum Modifier {
    LocationRequiredSkillModifier(i32),
    LocationGroupModifier(i32),
    LocationModifier,
    OwnerRequiredSkillModifier(i32),
    ItemModifier,
}

// A collected effect: a row of list 1.
#[derive(Clone, Copy)]
pub struct Pass2Effect {
    pub origin: Origin,
    pub modifier: Modifier,
    pub operator: EffectOperator,
    pub source_quantity: u32,
    pub target: u32,
    pub target_attribute_id: i32,
    pub resistance: Option<i32>,
}

// An entry of an attribute row: a row of list 3. Its number is its effect's row in list 1, from 0.
#[derive(Clone, Copy)]
pub struct Effect {
    pub origin: Origin,
    pub operator: EffectOperator,
    pub penalty: bool,
    pub quantity: u32,
    pub resistance: Option<i32>,
    pub number: u32,
}

// What a source row is from.
#[derive(Clone, Copy)]
pub enum SourceRef {
    Object { number: u32 },
    Buff { id: i32 },
}

// What `runs_at` answers: whether an effect runs in the state, and the lowest state that would do.
#[derive(Clone, Copy)]
pub struct RunsAt {
    pub runs: bool,
    pub lowest: ItemState,
}

// A source row, a record by value with its two floats and a flag for the penalty, as 01 has it. Its state is the lowest of its source that would do.
#[derive(Clone, Copy)]
pub struct Source {
    pub from: SourceRef,
    pub effect_id: Option<i32>,
    pub source_attribute_id: Option<i32>,
    pub operator: EffectOperator,
    pub value: f64,
    pub quantity: u32,
    pub penalised: bool,
    pub penalty: f64,
    pub applied: bool,
    pub state: ItemState,
}

// A value as the listing has it: how many hundredths, and whether a minus stands before them.
#[derive(Clone, Copy)]
pub struct Hundredths {
    pub minus: bool,
    pub count: u64,
}

// Table 1.
#[derive(Clone, Copy)]
pub struct DogmaAttribute {
    pub id: i32,
    pub flags: u32,
    pub default_value: f64,
    pub min_attribute_id: i32,
    pub max_attribute_id: i32,
}

// Table 2. A record that a refusal can name has its number.
#[derive(Clone, Copy)]
pub struct DogmaEffect {
    pub number: u32,
    pub id: i32,
    pub category: u32,
    pub resistance_attribute_id: i32,
    pub usage_chance_attribute_id: i32,
    pub first_modifier: u32,
    pub modifiers: u32,
}

// Table 3.
#[derive(Clone, Copy)]
pub struct DogmaModifier {
    pub number: u32,
    pub func: u32,
    pub domain: u32,
    pub operation: u32,
    pub modifying_attribute_id: i32,
    pub modified_attribute_id: i32,
    pub skill_type_id: i32,
    pub group_id: i32,
}

// Table 4.
#[derive(Clone, Copy)]
pub struct TypeDogmaEffect {
    pub type_id: i32,
    pub effect_id: i32,
    pub is_default: u32,
}

// Table 5.
#[derive(Clone, Copy)]
pub struct DbuffCollection {
    pub number: u32,
    pub id: i32,
    pub operation: u32,
    pub first_modifier: u32,
    pub modifiers: u32,
}

// Table 6: an object as the sheet has it.
#[derive(Clone, Copy)]
pub struct Item {
    pub number: u32,
    pub kind: u32,
    pub type_id: i32,
    pub group_id: i32,
    pub category_id: i32,
    pub slot: u32,
    pub quantity: u32,
    pub state: u32,
    pub max_state: u32,
    pub flags: u32,
    pub mutation_base: i32,
    pub projected_effect: i32,
    pub first_attribute: u32,
    pub attributes: u32,
    pub first_ability: u32,
    pub abilities: u32,
    pub first_side_effect: u32,
    pub side_effects: u32,
}

// Table 7.
#[derive(Clone, Copy)]
pub struct BaseAttribute {
    pub attribute_id: i32,
    pub value: f64,
}

// Table 9.
#[derive(Clone, Copy)]
pub struct ProjectedBuff {
    pub id: i32,
    pub value: f64,
}

// Table 10.
#[derive(Clone, Copy)]
pub struct Ask {
    pub object: u32,
    pub attribute_id: i32,
}

// The nine refusals, each with its place.
#[derive(Clone, Copy)]
pub enum Refusal {
    Shape(u32),
    Func(u32),
    Domain(u32),
    Category(u32),
    Operation(u32),
    Other(u32),
    Room(u32),
    Number(u32),
    Depth(u32),
}
