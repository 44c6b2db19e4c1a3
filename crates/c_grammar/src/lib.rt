//! The grammar of C texts: what tokens derive, and what the next tokens begin.

#![tactic(auto)]

mod begins;
mod fault;
mod forms;
mod found;
mod lookahead;
mod type_names;
mod type_words;

pub use begins::{
    BinaryOperator, Following, ItemForm, Operand, ParamsForm, Prefix, StmtForm, UnaryOperator,
};
pub use fault::ParseFault;
pub use forms::{
    all_named, else_at, form_at, function_at, further, further_at, goes_on, item_at, name_at,
    params_at,
};
pub use found::{Found, Read, close, expect, expect_name, expect_while, next_token, type_name};
pub use lookahead::{
    assignment_at, behind, cast_at, increment_at, is_unary, name_of, next_is, operand_at,
    operator_at, place_at, prefix_at, type_at,
};
