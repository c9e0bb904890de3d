// From tokens to a query with its type.
ghost use Rattle.std.specs.Prelude.{◌≤◌, length, IfOk};
ghost use Rattle.qc_oql_tree.specs.Sizes.{query_size};
ghost use Rattle.qc_oql_tree.specs.Soundness.{IsSound};
ghost use Rattle.qc_oql.specs.Queries.{Answers};

use qc_lex::Words;
use qc_oql_check::check;
use qc_oql_text::parse;
use qc_oql_tree::Query;
use qc_source::QueryFault;
use qc_types::{Schema, Ty};
use std::alloc::Global;

/// A query with its type in a schema.
#[derive(Drop)]
pub struct TypedQuery {
    /// The query.
    pub query: Query,
    /// The type of its answers.
    pub ty: Ty,
}

/// The query of a schema that tokens spell, with its type (`IsQuery`). A fault comes exactly where they spell none:
/// `BadSyntax` with the token from which on the tokens begin no query; `BadType` with the place of the first fault of
/// the types. `Memory` says that memory was wanting. The query has at most one node for each token (`small`). In each
/// world of the schema it has a value of the type, and in 64 bits that value or Range (`sound`).
pub fn read(alloc: Global, schema: &Schema, words: &Words) -> Result<TypedQuery, QueryFault>
    ensures reads { Answers schema.now words.now result }
    ensures small { IfOk result (λ typed. query_size typed.query ≤ length words.now) }
    ensures sound { IfOk result (λ typed. IsSound schema.now typed.query typed.ty) }
{
    let query = parse(alloc, words)?;
    let ty = check(alloc, schema, &query)?;
    Ok(TypedQuery { query, ty })
}
