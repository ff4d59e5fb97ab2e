// The category numbers of the header.
ghost use Rattle.std.specs.Prelude.{◌+◌, ◌≤◌, length};
ghost use Rattle.rules.specs.Bytes.{categories_at};
ghost use Rattle.rules.specs.Sheet.{book_of};
ghost use Rattle.item.specs.Categories.{CategoriesOf};

use super::locations::Categories;
use columns::TablePairs;
use info::header::{category_module, category_structure_module, category_subsystem};

// The category numbers that tell a module, from the header.
pub fn categories_of(book: &[u8], pairs: &TablePairs) -> Categories
    requires a_header { categories_at pairs.now + 12 ≤ length book.now }
    ensures of_the_header { CategoriesOf (book_of book.now pairs.now) result }
{
    Categories {
        modules: category_module(book, pairs),
        subsystems: category_subsystem(book, pairs),
        structure_modules: category_structure_module(book, pairs),
    }
}
