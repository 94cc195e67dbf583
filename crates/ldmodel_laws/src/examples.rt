//! Small projects, and what the definitions say of them.

ghost use Rattle.std.specs.Prelude.{◌≡◌, ℕ, List, [], ◌∷◌, Err, None, Ok, Some, codes, true};
ghost use Rattle.elfobj.specs.declared.refusal.ObjectRefusal.TheVariants.{Short};
ghost use Rattle.elfobj.specs.declared.symbol.Binding.TheVariants.{Global, Weak};
ghost use Rattle.ldscript.specs.statements.declared.input.Sort.TheVariants.{ByName, ByAlignment};
ghost use Rattle.ldmodel.specs.Edits.{Add, After, InUse, Limit, Move, NotAnObject, PastEnd, Remove, Unknown};
ghost use Rattle.ldmodel.specs.Edits.{early_refusal};
ghost use Rattle.ldmodel.specs.Live.{live, orphans};
ghost use Rattle.ldmodel.specs.NameFaults.{ByObject, duplicates};
ghost use Rattle.ldmodel.specs.Names.{Common, Duplicate, Strong, Weak as WeakCase, decision, provided};
ghost use Rattle.ldmodel.specs.Rows.{rows};
ghost use Rattle.ldmodel_laws.specs.ExampleProjects.{a_and_b, both, both_but_b, collected, collected_by, discarded};
ghost use Rattle.ldmodel_laws.specs.ExampleProjects.{has_end};
ghost use Rattle.ldmodel_laws.specs.ExampleProjects.{marker, of_a, of_b, of_symbols, of_two, only_a, only_b, providing};
ghost use Rattle.ldmodel_laws.specs.ExampleProjects.{unaligned, uses_end};
ghost use Rattle.ldmodel_laws.specs.Examples.{any, common, defined, exactly, from_any, names, reference, section_names};
ghost use Rattle.ldmodel_laws.specs.Examples.{undefined, word};

/// Rows: one statement takes its sections together, object by object; two statements one after the other; a sort orders
/// the sections of its statement, and keeps the order of equal keys; EXCLUDE_FILE holds for one word; to a sort
/// alignments 0 and 1 are the same.
pub fn rows_by_example()
    ensures together { names (rows (of_two (both ∷ [])))
        ≡ (of_a (codes ".a") ∷ of_a (codes ".b") ∷ of_b (codes ".a") ∷ of_b (codes ".b") ∷ []) ∷ [] }
    ensures apart { names (rows (of_two (only_a ∷ only_b ∷ [])))
        ≡ (of_a (codes ".a") ∷ of_b (codes ".a") ∷ of_a (codes ".b") ∷ of_b (codes ".b") ∷ []) ∷ [] }
    ensures by_name { names (rows (of_two (record both { sort = Some ByName } ∷ [])))
        ≡ (of_a (codes ".a") ∷ of_b (codes ".a") ∷ of_a (codes ".b") ∷ of_b (codes ".b") ∷ []) ∷ [] }
    ensures by_alignment { names (rows (of_two (record both { sort = Some ByAlignment } ∷ [])))
        ≡ (of_a (codes ".b") ∷ of_b (codes ".b") ∷ of_a (codes ".a") ∷ of_b (codes ".a") ∷ []) ∷ [] }
    ensures excluded { names (rows (of_two (both_but_b ∷ only_a ∷ [])))
        ≡ (of_a (codes ".a") ∷ of_a (codes ".b") ∷ of_b (codes ".b") ∷ of_b (codes ".a") ∷ []) ∷ [] }
    ensures orphan { section_names (orphans (of_two (both_but_b ∷ []))) ≡ of_b (codes ".a") ∷ [] }
    ensures zero_is_one { names (rows unaligned) ≡ (of_a (codes ".a") ∷ of_a (codes ".b") ∷ []) ∷ [] }
{}

/// Garbage collection: what the entry symbol's section refers to is live, and what a statement under KEEP takes; what
/// `/DISCARD/` takes is not, under KEEP either. A relocation of type NONE refers to its target as any other does, and a
/// common block can be a target.
pub fn live_by_example()
    ensures by_reference { section_names (live (collected (codes "f") (from_any (word any ∷ []) ∷ [])))
        ≡ (codes "a.o", codes ".text") ∷ (codes "b.o", codes ".text.f") ∷ [] }
    ensures by_keep { section_names (live (collected (codes "g")
        (record (from_any (word (exactly (codes ".text.f")) ∷ [])) { keep = true } ∷ from_any (word any ∷ []) ∷ [])))
        ≡ (codes "a.o", codes ".text") ∷ (codes "b.o", codes ".text.f") ∷ (codes "c.o", codes ".text.g") ∷ [] }
    ensures out { section_names (live (discarded (codes "f") (from_any (word any ∷ []) ∷ [])))
        ≡ (codes "a.o", codes ".text") ∷ [] }
    ensures by_marker { section_names
        (live (collected_by (marker 2) (undefined (codes "f")) (defined Weak 1 (codes "f"))))
        ≡ (codes "a.o", codes ".text") ∷ (codes "b.o", codes ".text.f") ∷ [] }
    ensures to_common { section_names
        (live (collected_by (reference 2) (undefined (codes "buf")) (common 4 4 (codes "buf"))))
        ≡ (codes "a.o", codes ".text") ∷ (codes "b.o", codes "COMMON") ∷ [] }
{}

/// Names: of common entries the first owns the block, which has the greatest size and alignment; a second global
/// definition is a fault; a PROVIDE holds if an object has an undefined entry, and gives way to a definition.
pub fn names_by_example()
    ensures commons { decision (of_symbols (common 4 8 (codes "buf")) (common 16 4 (codes "buf"))) (codes "buf")
        ≡ Common (record { object = 0; symbol = 1 }) 16 8 }
    ensures weak { decision (of_symbols (defined Weak 1 (codes "w")) (defined Weak 1 (codes "w"))) (codes "w")
        ≡ WeakCase (record { object = 0; symbol = 1 }) }
    ensures strong { decision (of_symbols (defined Weak 1 (codes "w")) (defined Global 1 (codes "w"))) (codes "w")
        ≡ Strong (record { object = 1; symbol = 1 }) }
    ensures duplicate { decision (of_symbols (defined Global 1 (codes "f")) (defined Global 1 (codes "f"))) (codes "f")
        ≡ Duplicate }
    ensures fault { duplicates (of_symbols (defined Global 1 (codes "f")) (defined Global 1 (codes "f")))
        ≡ (record { name = codes "f"; object = codes "b.o"; first = ByObject (codes "a.o") }) ∷ [] }
    ensures not_mentioned { provided (providing []) ≡ [] }
    ensures mentioned { provided (providing (uses_end ∷ [])) ≡ codes "end" ∷ [] }
    ensures given_way { decision (providing (uses_end ∷ has_end ∷ [])) (codes "end")
        ≡ Common (record { object = 1; symbol = 1 }) 4 4 }
{}

/// Edits: the first refusal that applies, in the order name in use, name unknown, position past the end, limit, object;
/// the place that an object is moved to counts in the list without it.
pub fn edits_by_example()
    ensures in_use { early_refusal (of_two []) (Add (codes "a.o") 9 []) ≡ Some InUse }
    ensures past_end { early_refusal (of_two []) (Add (codes "a b") 3 []) ≡ Some PastEnd }
    ensures limit { early_refusal (of_two []) (Add (codes "a b") 2 []) ≡ Some Limit }
    ensures unnamed { early_refusal (of_two []) (Add [] 2 []) ≡ Some Limit }
    ensures short { After (of_two []) (Add (codes "c.o") 2 []) (Err (NotAnObject Short)) }
    ensures unknown { early_refusal (of_two []) (Move (codes "c.o") 9) ≡ Some Unknown }
    ensures too_far { early_refusal (of_two []) (Move (codes "a.o") 2) ≡ Some PastEnd }
    ensures last { After (of_two []) (Move (codes "a.o") 1)
        (Ok (record (of_two []) { objects = a_and_b (codes "b.o") ∷ a_and_b (codes "a.o") ∷ [] })) }
    ensures removed { After (of_two []) (Remove (codes "a.o"))
        (Ok (record (of_two []) { objects = a_and_b (codes "b.o") ∷ [] })) }
    ensures not_there { early_refusal (of_two []) (Remove (codes "c.o")) ≡ Some Unknown }
{}
