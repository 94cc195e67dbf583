//! Laws of tables that are kept under the keys of objects.

ghost use Rattle.std.specs.Prelude.{◌≡◌, ℕ, List, Some, is_some, map, nat_eq, position};
ghost use Rattle.std.specs.List.{enumerate_from};
ghost use Rattle.elfobj.specs.Symbols.{NamedSymbol};
ghost use Rattle.ldmodel.specs.Names.{symbol_tables};
ghost use Rattle.ldmodel.specs.Project.{NamedObject};
ghost use Rattle.ldmodel_project.specs.Listing.{AreKeysDistinct, Listed, found_under, keys_of};
ghost use Rattle.ldmodel_project.specs.Next.{next_entries, edited_key};
ghost use Rattle.ldmodel_project.specs.Tables.{HasTableAt, place_or_0, symbols_under, tables_under, without_table};
ghost use Rattle.ldmodel_project.specs.Edited.{ChangesOneObject};
ghost use Rattle.ldmodel_project.specs.declared.staged.StagedObjects.{StagedObjects};

/// An edit changes the list of symbol tables under keys only at the edited object: before it and after it the list has
/// the tables of the other objects and, at the place of the edited one, the table of that.
pub fn tables_follow()
    ensures before { (entries : List Listed) (staged : StagedObjects) (key : ℕ) → ChangesOneObject entries staged
        → edited_key staged.step ≡ Some key
        → HasTableAt key (symbols_under entries key) staged.places.before (without_table key (tables_under entries))
        (tables_under entries) }
    ensures after { (entries : List Listed) (staged : StagedObjects) (key : ℕ) → ChangesOneObject entries staged
        → edited_key staged.step ≡ Some key
        → HasTableAt key (symbols_under (next_entries entries staged) key) staged.places.after
        (without_table key (tables_under entries)) (tables_under (next_entries entries staged)) }
{}

/// Symbol tables under keys are the tables of the objects under their places, where a place stands for each key.
pub fn tables_by_place()
    ensures { (keys : List ℕ) (objects : List NamedObject) (tables : List (ℕ × List NamedSymbol))
        → AreKeysDistinct keys → map (λ (table : ℕ × List NamedSymbol). table.0) tables ≡ keys
        → map (λ (table : ℕ × List NamedSymbol). table.1) tables ≡ symbol_tables objects
        → map (λ (table : ℕ × List NamedSymbol). (place_or_0 keys table.0, table.1)) tables
        ≡ enumerate_from 0 (symbol_tables objects) }
{}

/// A key has a place exactly if there is an object under it.
pub fn found_where_placed()
    ensures { (entries : List Listed) (key : ℕ)
        → is_some (position (nat_eq key) (keys_of entries)) ≡ is_some (found_under entries key) }
{}
