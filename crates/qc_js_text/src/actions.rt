//! The actions of js.grammar by their numbers, made by tools/table.

/// {no_statements}
pub const DO_NO_STATEMENTS: u32 = 0;

/// {statement}
pub const DO_STATEMENT: u32 = 1;

/// {name}
pub const DO_NAME: u32 = 2;

/// {let}
pub const DO_LET: u32 = 3;

/// {for}
pub const DO_FOR: u32 = 4;

/// {if}
pub const DO_IF: u32 = 5;

/// {block}
pub const DO_BLOCK: u32 = 6;

/// {set}
pub const DO_SET: u32 = 7;

/// {push}
pub const DO_PUSH: u32 = 8;

/// {const}
pub const DO_CONST: u32 = 9;

/// {collect}
pub const DO_COLLECT: u32 = 10;

/// {none}
pub const DO_NONE: u32 = 11;

/// {item}
pub const DO_ITEM: u32 = 12;

/// {array}
pub const DO_ARRAY: u32 = 13;

/// {variable}
pub const DO_VARIABLE: u32 = 14;

/// {world}
pub const DO_WORLD: u32 = 15;

/// {true}
pub const DO_TRUE: u32 = 16;

/// {false}
pub const DO_FALSE: u32 = 17;

/// {null}
pub const DO_NULL: u32 = 18;

/// {int}
pub const DO_INT: u32 = 19;

/// {text}
pub const DO_TEXT: u32 = 20;

/// {called}
pub const DO_CALLED: u32 = 21;

/// {call}
pub const DO_CALL: u32 = 22;
