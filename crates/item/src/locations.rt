// Where an item is, by its slot and its category (item.rs).
ghost use Rattle.std.specs.Prelude.{◌≡◌};
ghost use Rattle.rules.specs.Sheet.{Book, Fit};
ghost use Rattle.rules.specs.Item.{is_rig, is_subsystem, is_drone, is_fighter, is_on_char, is_owner_modifiable, is_module_category, is_module, is_in_ship, is_calculated, passed, structure_fit};
ghost use Rattle.item.specs.Categories.{CategoriesOf};

use rules::{
    BOOSTER, CATEGORY_DRONE, CATEGORY_FIGHTER, CATEGORY_IMPLANT, DRONE_BAY, FIGHTER_BAY,
    FIGHTER_TUBE, HIGH, IMPLANT, Item, RIG, SERVICE, SUBSYSTEM,
};

// CATEGORY_MODULE, CATEGORY_SUBSYSTEM and CATEGORY_STRUCTURE_MODULE, which the header gives.
#[derive(Clone, Copy)]
pub struct Categories {
    pub modules: i32,
    pub subsystems: i32,
    pub structure_modules: i32,
}

// Whether an item is in a rig slot.
pub fn is_rig(o: Item) -> bool
    ensures defined { result ≡ is_rig o }
{
    o.slot == RIG
}

// Whether an item is in a subsystem slot.
pub fn is_subsystem(o: Item) -> bool
    ensures defined { result ≡ is_subsystem o }
{
    o.slot == SUBSYSTEM
}

// Whether an item is a drone in the drone bay.
pub fn is_drone(o: Item) -> bool
    ensures defined { result ≡ is_drone o }
{
    (o.slot == DRONE_BAY) & (o.category_id == CATEGORY_DRONE)
}

// Whether an item is a fighter in a tube or in the bay.
pub fn is_fighter(o: Item) -> bool
    ensures defined { result ≡ is_fighter o }
{
    ((o.slot == FIGHTER_TUBE) | (o.slot == FIGHTER_BAY)) & (o.category_id == CATEGORY_FIGHTER)
}

// Whether an item is an implant or a booster of the char.
pub fn is_on_char(o: Item) -> bool
    ensures defined { result ≡ is_on_char o }
{
    ((o.slot == IMPLANT) | (o.slot == BOOSTER)) & (o.category_id == CATEGORY_IMPLANT)
}

// Whether an owner modifier reaches an item: fighters and drones.
pub fn is_owner_modifiable(o: Item) -> bool
    ensures defined { result ≡ is_owner_modifiable o }
{
    is_fighter(o) | is_drone(o)
}

// Whether a category is one of the three that modules have.
pub fn is_module_category(c: Categories, category: i32) -> bool
    ensures defined { (k : Book) → CategoriesOf k c → result ≡ is_module_category k category }
{
    (category == c.modules) | (category == c.subsystems) | (category == c.structure_modules)
}

// Whether an item is a module of the hull, a service aside.
pub fn is_module(c: Categories, o: Item) -> bool
    ensures defined { (k : Book) → CategoriesOf k c → result ≡ is_module k o }
{
    (HIGH <= o.slot) & (o.slot <= SUBSYSTEM) & is_module_category(c, o.category_id)
}

// Drones are the character's, and not in the ship.
pub fn is_in_ship(c: Categories, o: Item) -> bool
    ensures defined { (k : Book) → CategoriesOf k c → result ≡ is_in_ship k o }
{
    is_module(c, o) | (o.slot == SERVICE) & is_module_category(c, o.category_id)
}

// Whether collection takes an item at all.
pub fn is_calculated(c: Categories, o: Item) -> bool
    ensures defined { (k : Book) → CategoriesOf k c → result ≡ is_calculated k o }
{
    is_in_ship(c, o) | is_fighter(o) | is_on_char(o) | is_drone(o)
}

// Whether collection passes an item over, with its charge.
pub fn is_passed(c: Categories, structure: bool, o: Item) -> bool
    ensures defined { (k : Book) (f : Fit) → CategoriesOf k c → structure ≡ structure_fit f → result ≡ passed k f o }
{
    structure & is_on_char(o) | !is_calculated(c, o)
}
