// The kind of an object, and what its flags say.
ghost use Rattle.std.specs.Prelude.{◌≡◌, cond, Some, None};
ghost use Rattle.rules.specs.Item.{is_item, is_charge, is_skill, is_projected, abilities_given, mutated};

use rules::{CHARGE, ITEM, Item, PROJECTED, SKILL};

// Whether an object is an item: a fitted one, not a charge.
pub fn is_item(o: Item) -> bool
    ensures defined { result ≡ is_item o }
{
    o.kind == ITEM
}

// Whether an object is the charge of the item before it.
pub fn is_charge(o: Item) -> bool
    ensures defined { result ≡ is_charge o }
{
    o.kind == CHARGE
}

// Whether an object is a skill.
pub fn is_skill(o: Item) -> bool
    ensures defined { result ≡ is_skill o }
{
    o.kind == SKILL
}

// Whether an object is projected onto the ship from outside.
pub fn is_projected(o: Item) -> bool
    ensures defined { result ≡ is_projected o }
{
    o.kind == PROJECTED
}

// Flag 1: the fit picks a fighter's abilities.
pub fn abilities_given(o: Item) -> bool
    ensures defined { result ≡ abilities_given o }
{
    o.flags % 2 == 1
}

// Flag 2: the item has a mutation base.
pub fn mutated(o: Item) -> bool
    ensures defined { result ≡ mutated o }
{
    o.flags / 2 == 1
}

// The type that an item was mutated from, where it was.
pub fn mutation_base(o: Item) -> Option<i32>
    ensures defined { result ≡ cond (mutated o) (Some o.mutation_base) None }
{
    mutated(o).then_some(o.mutation_base)
}
