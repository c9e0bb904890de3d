//! The actions of oql.grammar by their numbers, made by tools/table.

/// {none}
pub const DO_NONE: u32 = 0;

/// {name}
pub const DO_NAME: u32 = 1;

/// {entry}
pub const DO_ENTRY: u32 = 2;

/// {mark}
pub const DO_MARK: u32 = 3;

/// {select_distinct}
pub const DO_SELECT_DISTINCT: u32 = 4;

/// {select}
pub const DO_SELECT: u32 = 5;

/// {filter}
pub const DO_FILTER: u32 = 6;

/// {no_filter}
pub const DO_NO_FILTER: u32 = 7;

/// {no_keys}
pub const DO_NO_KEYS: u32 = 8;

/// {order}
pub const DO_ORDER: u32 = 9;

/// {no_order}
pub const DO_NO_ORDER: u32 = 10;

/// {asc}
pub const DO_ASC: u32 = 11;

/// {desc}
pub const DO_DESC: u32 = 12;

/// {if_else}
pub const DO_IF_ELSE: u32 = 13;

/// {for_all}
pub const DO_FOR_ALL: u32 = 14;

/// {exists}
pub const DO_EXISTS: u32 = 15;

/// {unary}
pub const DO_UNARY: u32 = 16;

/// {binary}
pub const DO_BINARY: u32 = 17;

/// {like}
pub const DO_LIKE: u32 = 18;

/// {divide}
pub const DO_DIVIDE: u32 = 19;

/// {negative}
pub const DO_NEGATIVE: u32 = 20;

/// {positive}
pub const DO_POSITIVE: u32 = 21;

/// {dot}
pub const DO_DOT: u32 = 22;

/// {whole}
pub const DO_WHOLE: u32 = 23;

/// {text}
pub const DO_TEXT: u32 = 24;

/// {constant}
pub const DO_CONSTANT: u32 = 25;

/// {variable}
pub const DO_VARIABLE: u32 = 26;

/// {struct}
pub const DO_STRUCT: u32 = 27;

/// {no_members}
pub const DO_NO_MEMBERS: u32 = 28;

/// {bag}
pub const DO_BAG: u32 = 29;

/// {call}
pub const DO_CALL: u32 = 30;

/// {brand}
pub const DO_BRAND: u32 = 31;

/// {match}
pub const DO_MATCH: u32 = 32;

/// {member}
pub const DO_MEMBER: u32 = 33;
