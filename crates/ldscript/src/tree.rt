//! The parts of a script's tree: statements, expressions, patterns and names. A crate above names these alone.

pub use ldscript_statements::directive::{Assertion, Assignment, Directive, DotCommand};
pub use ldscript_statements::fill::Fill;
pub use ldscript_statements::formula::Formula;
pub use ldscript_statements::given::Given;
pub use ldscript_statements::held::Held;
pub use ldscript_statements::input::{Input, InputStatement, SectionWord, Sort};
pub use ldscript_statements::numbering::{DirectiveAt, InputStatementAt, OutputSectionAt};
pub use ldscript_statements::place::InputPlace;
pub use ldscript_statements::section::{BodyCommand, BodyStatement, Load, OutputSection, Width};
pub use ldscript_statements::sequence::Sequence;
pub use ldscript_statements::statement::{Command, Item, ItemCommand, Region, Statement};
pub use ldscript_statements::symbols::add_symbols;
pub use ldscript_terms::dot_forms::DotForm;
pub use ldscript_terms::expression::{Expr, RegionQuery, SectionQuery};
pub use ldscript_terms::operator::{BinaryOperator, UnaryOperator};
pub use ldscript_terms::pattern::{Pattern, matches};
pub use ldscript_tokens::name::ScriptName;
