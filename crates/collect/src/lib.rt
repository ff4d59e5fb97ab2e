// Collection (pass_2.rs up to the dispatch): all objects' effects and the buffs, in order, into lists 1 and 4.
#![tactic(auto)]

use item::locations::Categories;

// What of the fit all its objects go by: the categories of modules, whether the hull is a structure, the char.
#[derive(Clone, Copy)]
pub struct Hull {
    pub categories: Categories,
    pub structure: bool,
    pub character: u32,
}

// The passes over the objects: ship, mode and char; projected; items each with its charge; skills.
#[derive(Clone, Copy)]
pub enum Phase {
    Front,
    Projected,
    Fitted,
    Skills,
}

pub mod buffs;
pub mod collecting;
pub mod effects;
pub mod objects;
pub mod owners;
pub mod projected;
pub mod uses;
