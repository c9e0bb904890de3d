// The kinds of tokens, by the numbers of specs/TokenKinds.antt.

pub const NAME: u32 = 0;

pub const DEFINE: u32 = 1;

pub const AS: u32 = 2;

pub const SELECT: u32 = 3;

pub const DISTINCT: u32 = 4;

pub const FROM: u32 = 5;

pub const WHERE: u32 = 6;

pub const ORDER: u32 = 7;

pub const BY: u32 = 8;

pub const IN: u32 = 9;

pub const ASC: u32 = 10;

pub const DESC: u32 = 11;

pub const IF: u32 = 12;

pub const THEN: u32 = 13;

pub const ELSE: u32 = 14;

pub const EXISTS: u32 = 15;

pub const FOR: u32 = 16;

pub const ALL: u32 = 17;

pub const TRUE: u32 = 18;

pub const FALSE: u32 = 19;

pub const NIL: u32 = 20;

pub const STRUCT: u32 = 21;

pub const BAG: u32 = 22;

pub const MATCH: u32 = 23;

pub const CAST: u32 = 24;

pub const BRAND: u32 = 25;

pub const OR: u32 = 26;

pub const AND: u32 = 27;

pub const NOT: u32 = 28;

pub const LIKE: u32 = 29;

pub const UNION: u32 = 30;

pub const EXCEPT: u32 = 31;

pub const INTERSECT: u32 = 32;

pub const MOD: u32 = 33;

pub const COUNT: u32 = 34;

pub const SUM: u32 = 35;

pub const MIN: u32 = 36;

pub const MAX: u32 = 37;

pub const AVG: u32 = 38;

pub const ELEMENT: u32 = 39;

pub const FLATTEN: u32 = 40;

pub const ABS: u32 = 41;

pub const LEFT: u32 = 42;

pub const RIGHT: u32 = 43;

pub const UNBRAND: u32 = 44;

pub const ORELSE: u32 = 45;

pub const LEAST: u32 = 46;

pub const GREATEST: u32 = 47;

pub const ZERO: u32 = 48;

pub const NONZERO: u32 = 49;

pub const TEXT: u32 = 50;

pub const OPEN: u32 = 51;

pub const CLOSE: u32 = 52;

pub const COMMA: u32 = 53;

pub const DOT: u32 = 54;

pub const COLON: u32 = 55;

pub const SEMICOLON: u32 = 56;

pub const PLUS: u32 = 57;

pub const MINUS: u32 = 58;

pub const TIMES: u32 = 59;

pub const DIVIDE: u32 = 60;

pub const EQUAL: u32 = 61;

pub const NOT_EQUAL: u32 = 62;

pub const LESS: u32 = 63;

pub const AT_MOST: u32 = 64;

pub const GREATER: u32 = 65;

pub const AT_LEAST: u32 = 66;

pub const GLUE: u32 = 67;

pub const OTHER: u32 = 68;
