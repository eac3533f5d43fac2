//! The words and the signs of the language.

use crate::{AssignOp, Keyword, Lexeme, WordKind};
use pdl_elem::{BinaryOp, UnaryOp};

/// The words that name no call.
pub(crate) const KEYWORDS: &[(&[u8], Keyword)] = &[
    (b"my", Keyword::My),
    (b"p", Keyword::Print),
    (b"print", Keyword::Print),
    (b"undef", Keyword::Undef),
    (b"vars", Keyword::Vars),
    (b"dump", Keyword::Dump),
    (b"flow", Keyword::Flow),
    (b"pp_def", Keyword::PpDef),
    (b"watch", Keyword::Watch),
    (b"unwatch", Keyword::Unwatch),
    (b"pdl", Keyword::Pdl),
    (b"info", Keyword::Info),
    (b"sever", Keyword::Sever),
    (b"reshape", Keyword::Reshape),
];

/// The words beside those of the types that are something beside the name of a call.
pub(crate) const WORD_KINDS: &[(&[u8], WordKind)] = &[
    (b"slice", WordKind::View),
    (b"nice", WordKind::View),
    (b"xchg", WordKind::View),
    (b"mv", WordKind::View),
    (b"reorder", WordKind::View),
    (b"diagonal", WordKind::View),
    (b"dummy", WordKind::View),
    (b"clump", WordKind::View),
    (b"squeeze", WordKind::View),
    (b"flat", WordKind::View),
    (b"index", WordKind::View),
    (b"where", WordKind::View),
    (b"range", WordKind::View),
    (b"Pars", WordKind::Pars),
    (b"Code", WordKind::Code),
];

/// The signs of operators on two values.
pub(crate) const OPERATORS: &[(&[u8], BinaryOp)] = &[
    (b"+", BinaryOp::Add),
    (b"-", BinaryOp::Sub),
    (b"*", BinaryOp::Mul),
    (b"/", BinaryOp::Div),
    (b"%", BinaryOp::Rem),
    (b"<<", BinaryOp::Shl),
    (b">>", BinaryOp::Shr),
    (b"<", BinaryOp::Lt),
    (b">", BinaryOp::Gt),
    (b"<=", BinaryOp::Le),
    (b">=", BinaryOp::Ge),
    (b"==", BinaryOp::Eq),
    (b"!=", BinaryOp::Ne),
    (b"&", BinaryOp::And),
    (b"|", BinaryOp::Or),
    (b"^", BinaryOp::Xor),
];

/// The signs of assignments.
pub(crate) const ASSIGNMENTS: &[(&[u8], AssignOp)] = &[
    (b".=", AssignOp::Set),
    (b"+=", AssignOp::With(BinaryOp::Add)),
    (b"-=", AssignOp::With(BinaryOp::Sub)),
    (b"*=", AssignOp::With(BinaryOp::Mul)),
    (b"/=", AssignOp::With(BinaryOp::Div)),
    (b"%=", AssignOp::With(BinaryOp::Rem)),
    (b"<<=", AssignOp::With(BinaryOp::Shl)),
    (b">>=", AssignOp::With(BinaryOp::Shr)),
    (b"&=", AssignOp::With(BinaryOp::And)),
    (b"|=", AssignOp::With(BinaryOp::Or)),
    (b"^=", AssignOp::With(BinaryOp::Xor)),
];

/// The other signs.
pub(crate) const SIGNS: &[(&[u8], Lexeme)] = &[
    (b"(", Lexeme::Open),
    (b")", Lexeme::Close),
    (b"[", Lexeme::OpenSquare),
    (b"]", Lexeme::CloseSquare),
    (b",", Lexeme::Comma),
    (b"=", Lexeme::Equals),
    (b"->", Lexeme::Arrow),
    (b"=>", Lexeme::FatArrow),
    (b"!", Lexeme::Prefix(UnaryOp::Not)),
    (b"~", Lexeme::Prefix(UnaryOp::Complement)),
    (b":", Lexeme::Unknown),
];
