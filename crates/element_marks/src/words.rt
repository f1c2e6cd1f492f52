// The words with a meaning in the grammar of declarations: one row a word.

ghost use Rattle.std.specs.Prelude.{◌≡◌};
ghost use Rattle.std.specs.Prelude.{[], find, map, slice_index_or, slice_range};
ghost use Rattle.std.specs.List.{list_any};
ghost use Rattle.std.specs.Option.{option_copied};
ghost use Rattle.std.specs.Str.{bytes_eq};
ghost use Rattle.element_marks.specs.Words.{keyword_in, keyword_of, looks_like_keyword, is_builtin, is_reserved, wants_name, is_modifier, is_joining, is_accessor, is_observer, is_operator_name, is_class_member, is_class, is_underscore, is_where, is_condition, is_async, is_throws, is_accessor_modifier, may_begin, starts_anywhere};

use crate::marks::byte_at;
use swift_lexer::BUILTIN_WORDS;

/// The words that begin a declaration.
#[derive(Clone, Copy, PartialEq, Eq, Debug)]
pub enum Starter {
    Import,
    Typealias,
    Associatedtype,
    Struct,
    Class,
    Enum,
    Protocol,
    Extension,
    Func,
    Var,
    Let,
    Init,
    Deinit,
    Subscript,
    Case,
    Operator,
    Precedencegroup,
    Actor,
    Macro,
}

/// What a word is for.
#[derive(Clone, Copy, PartialEq, Eq, Debug)]
pub enum Keyword {
    /// No word of the table.
    Plain,
    /// `_`, which is no name.
    Underscore,
    /// A modifier of declarations.
    Modifier,
    /// A modifier of declarations and of accessors.
    AccessorModifier,
    /// Begins a declaration.
    Starts(Starter),
    /// Joins what stands before it to what stands behind it.
    Joining,
    /// Joins, and ends an inheritance clause.
    Where,
    /// Begins a condition.
    Condition,
    /// Begins an accessor.
    Accessor,
    /// Begins an accessor that observes a variable.
    Observer,
    Async,
    Throws,
}

/// After the chapters on declarations and statements of The Swift Programming Language, and SE-0426 for accessors.
/// `class` is a modifier where one of these or a member follows; `actor` and `macro` begin a declaration where a
/// name follows; `init` begins an accessor too. The shorter words stand first.
pub const WORDS: [(&[u8], Keyword); 72] = [
    (b"_", Keyword::Underscore),
    (b"as", Keyword::Joining),
    (b"is", Keyword::Joining),
    (b"in", Keyword::Joining),
    (b"if", Keyword::Condition),
    (b"var", Keyword::Starts(Starter::Var)),
    (b"let", Keyword::Starts(Starter::Let)),
    (b"try", Keyword::Joining),
    (b"for", Keyword::Condition),
    (b"get", Keyword::Accessor),
    (b"set", Keyword::Accessor),
    (b"open", Keyword::Modifier),
    (b"lazy", Keyword::Modifier),
    (b"weak", Keyword::Modifier),
    (b"enum", Keyword::Starts(Starter::Enum)),
    (b"func", Keyword::Starts(Starter::Func)),
    (b"init", Keyword::Starts(Starter::Init)),
    (b"case", Keyword::Starts(Starter::Case)),
    (b"read", Keyword::Accessor),
    (b"final", Keyword::Modifier),
    (b"infix", Keyword::Modifier),
    (b"class", Keyword::Starts(Starter::Class)),
    (b"actor", Keyword::Starts(Starter::Actor)),
    (b"macro", Keyword::Starts(Starter::Macro)),
    (b"await", Keyword::Joining),
    (b"where", Keyword::Where),
    (b"guard", Keyword::Condition),
    (b"while", Keyword::Condition),
    (b"catch", Keyword::Condition),
    (b"_read", Keyword::Accessor),
    (b"async", Keyword::Async),
    (b"public", Keyword::Modifier),
    (b"static", Keyword::Modifier),
    (b"prefix", Keyword::Modifier),
    (b"import", Keyword::Starts(Starter::Import)),
    (b"struct", Keyword::Starts(Starter::Struct)),
    (b"deinit", Keyword::Starts(Starter::Deinit)),
    (b"switch", Keyword::Condition),
    (b"didSet", Keyword::Observer),
    (b"modify", Keyword::Accessor),
    (b"throws", Keyword::Throws),
    (b"private", Keyword::Modifier),
    (b"package", Keyword::Modifier),
    (b"unowned", Keyword::Modifier),
    (b"dynamic", Keyword::Modifier),
    (b"postfix", Keyword::Modifier),
    (b"willSet", Keyword::Observer),
    (b"_modify", Keyword::Accessor),
    (b"internal", Keyword::Modifier),
    (b"override", Keyword::Modifier),
    (b"mutating", Keyword::AccessorModifier),
    (b"optional", Keyword::Modifier),
    (b"required", Keyword::Modifier),
    (b"indirect", Keyword::Modifier),
    (b"isolated", Keyword::Modifier),
    (b"protocol", Keyword::Starts(Starter::Protocol)),
    (b"operator", Keyword::Starts(Starter::Operator)),
    (b"consuming", Keyword::AccessorModifier),
    (b"borrowing", Keyword::AccessorModifier),
    (b"typealias", Keyword::Starts(Starter::Typealias)),
    (b"extension", Keyword::Starts(Starter::Extension)),
    (b"subscript", Keyword::Starts(Starter::Subscript)),
    (b"fileprivate", Keyword::Modifier),
    (b"nonmutating", Keyword::AccessorModifier),
    (b"convenience", Keyword::Modifier),
    (b"nonisolated", Keyword::Modifier),
    (b"distributed", Keyword::Modifier),
    (b"__consuming", Keyword::AccessorModifier),
    (b"unsafeAddress", Keyword::Accessor),
    (b"associatedtype", Keyword::Starts(Starter::Associatedtype)),
    (
        b"precedencegroup",
        Keyword::Starts(Starter::Precedencegroup),
    ),
    (b"unsafeMutableAddress", Keyword::Accessor),
];

/// From which row and before which the words of the table have a length.
pub const ROWS: [(usize, usize); 21] = [
    (0, 0),
    (0, 1),
    (1, 5),
    (5, 11),
    (11, 19),
    (19, 31),
    (31, 41),
    (41, 48),
    (48, 57),
    (57, 62),
    (62, 62),
    (62, 68),
    (68, 68),
    (68, 69),
    (69, 70),
    (70, 71),
    (71, 71),
    (71, 71),
    (71, 71),
    (71, 71),
    (71, 72),
];

/// With which bytes the words of the table begin, by their length: each byte stands as many places behind the first as
/// it is greater than `_`, with dots between.
pub const FIRST_BYTES: [&[u8]; 21] = [
    b"",
    b"_",
    b"..a.......i",
    b".......fg....l......st.v",
    b"....c.ef..i..l..o..r....w",
    b"_.a.c..fg.i...m.........w",
    b".....d....i...m..p..st",
    b"_....d...........p....u.w",
    b"..........i...m.op.r",
    b"...bc.e.............st",
    b"",
    b"_...cd.f.......n",
    b"",
    b"......................u",
    b"..a",
    b".................p",
    b"",
    b"",
    b"",
    b"",
    b"......................u",
];

pub const BEFORE_LETTERS: u8 = b'_';

/// With what a name begins that only macros make.
pub const RESERVED: &[u8] = b"$sX";

/// What the word is for.
#[tactic(auto, unfolding(crate::specs::Words::keyword_of))]
#[inline(always)]
pub fn keyword_of(word: &[u8]) -> Keyword
    ensures { result ≡ keyword_of word.now }
{
    match word {
        b"let" => Keyword::Starts(Starter::Let),
        b"var" => Keyword::Starts(Starter::Var),
        _ => by_table(word),
    }
}

/// What the word is for, by the table.
#[tactic(auto, unfolding(crate::specs::Words::keyword_of))]
fn by_table(word: &[u8]) -> Keyword
    ensures { result ≡ keyword_of word.now }
{
    if !looks_like_keyword(word) {
        return Keyword::Plain;
    }
    let (from, to) = rows_of(word.len());
    keyword_in(rows_between(&WORDS, from, to), word)
}

/// From which row and before which the words of the table have that length.
fn rows_of(length: usize) -> (usize, usize)
    ensures { result ≡ slice_index_or ROWS length (0, 0) }
{
    ROWS.get(length).copied().unwrap_or((0, 0))
}

fn rows_between<'a>(
    rows: &'a [(&'a [u8], Keyword)],
    from: usize,
    to: usize,
) -> &'a [(&'a [u8], Keyword)]
    ensures { result.now ≡ slice_range rows.now from to }
{
    let to = rows.len().min(to);
    let from = to.min(from);
    &rows[from..to]
}

/// True where a word of the table is as long as this one and begins with the same byte.
fn looks_like_keyword(word: &[u8]) -> bool
    ensures { result ≡ looks_like_keyword word.now }
{
    let first = byte_at(word, 0);
    let place = first.saturating_sub(BEFORE_LETTERS);
    byte_at(row_at(&FIRST_BYTES, word.len()), place as usize) == first
}

/// The row at a place; past the last, an empty one.
fn row_at<'a>(rows: &'a [&'a [u8]], place: usize) -> &'a [u8]
    ensures { result.now ≡ slice_index_or (map (λ row. row.now) rows.now) place [] }
{
    match rows.get(place) {
        Some(row) => row,
        None => b"",
    }
}

fn keyword_in(rows: &[(&[u8], Keyword)], word: &[u8]) -> Keyword
    ensures { result ≡ keyword_in (λ row. row.0.now) (λ row. row.1) rows.now word.now }
{
    match row_of(rows, word) {
        Some(row) => row.1,
        None => Keyword::Plain,
    }
}

fn row_of<'a>(rows: &'a [(&'a [u8], Keyword)], word: &[u8]) -> Option<&'a (&'a [u8], Keyword)>
    ensures { option_copied result ≡ find (λ row. bytes_eq row.0.now word.now) rows.now }
{
    rows.iter().find(|row| is_spelled(row.0, word))
}

/// Whether the two are the same; most differ in their first byte.
fn is_spelled(spelling: &[u8], word: &[u8]) -> bool
    ensures { result ≡ bytes_eq spelling.now word.now }
{
    match (spelling.first(), word.first()) {
        (Some(a), Some(b)) if *a != *b => false,
        _ => spelling == word,
    }
}

/// Whether the word behind a `#` is one of Swift's own.
#[tactic(auto, unfolding(crate::specs::Words::is_builtin))]
pub fn is_builtin(word: &[u8]) -> bool
    ensures { result ≡ is_builtin word.now }
{
    is_one_of(&BUILTIN_WORDS, word)
}

fn is_one_of(words: &[&[u8]], word: &[u8]) -> bool
    ensures { result ≡ list_any (λ one. bytes_eq one.now word.now) words.now }
{
    words.iter().any(|one| *one == word)
}

/// Whether only macros make such a name.
#[tactic(auto, unfolding(crate::specs::Words::is_reserved))]
pub fn is_reserved(name: &[u8]) -> bool
    ensures { result ≡ is_reserved name.now }
{
    name.starts_with(RESERVED)
}

/// Whether the word begins a declaration only before a name.
pub fn wants_name(starter: Starter) -> bool
    ensures { result ≡ wants_name starter }
{
    matches!(starter, Starter::Actor | Starter::Macro)
}

pub fn is_modifier(keyword: Keyword) -> bool
    ensures { result ≡ is_modifier keyword }
{
    matches!(keyword, Keyword::Modifier | Keyword::AccessorModifier)
}

pub fn is_joining(keyword: Keyword) -> bool
    ensures { result ≡ is_joining keyword }
{
    matches!(keyword, Keyword::Joining | Keyword::Where)
}

pub fn is_accessor(keyword: Keyword) -> bool
    ensures { result ≡ is_accessor keyword }
{
    matches!(
        keyword,
        Keyword::Accessor | Keyword::Observer | Keyword::Starts(Starter::Init)
    )
}

pub fn is_observer(keyword: Keyword) -> bool
    ensures { result ≡ is_observer keyword }
{
    matches!(keyword, Keyword::Observer)
}

pub fn is_operator_name(keyword: Keyword) -> bool
    ensures { result ≡ is_operator_name keyword }
{
    matches!(keyword, Keyword::Starts(Starter::Operator | Starter::Func))
}

pub fn is_class_member(keyword: Keyword) -> bool
    ensures { result ≡ is_class_member keyword }
{
    matches!(
        keyword,
        Keyword::Starts(Starter::Func | Starter::Var | Starter::Let | Starter::Subscript)
    )
}

pub fn is_class(keyword: Keyword) -> bool
    ensures { result ≡ is_class keyword }
{
    matches!(keyword, Keyword::Starts(Starter::Class))
}

pub fn is_underscore(keyword: Keyword) -> bool
    ensures { result ≡ is_underscore keyword }
{
    matches!(keyword, Keyword::Underscore)
}

pub fn is_where(keyword: Keyword) -> bool
    ensures { result ≡ is_where keyword }
{
    matches!(keyword, Keyword::Where)
}

pub fn is_condition(keyword: Keyword) -> bool
    ensures { result ≡ is_condition keyword }
{
    matches!(keyword, Keyword::Condition)
}

pub fn is_async(keyword: Keyword) -> bool
    ensures { result ≡ is_async keyword }
{
    matches!(keyword, Keyword::Async)
}

pub fn is_throws(keyword: Keyword) -> bool
    ensures { result ≡ is_throws keyword }
{
    matches!(keyword, Keyword::Throws)
}

pub fn is_accessor_modifier(keyword: Keyword) -> bool
    ensures { result ≡ is_accessor_modifier keyword }
{
    matches!(keyword, Keyword::AccessorModifier)
}

/// Whether the word is a modifier or begins a declaration, if only where a name follows.
#[inline(always)]
pub fn may_begin(keyword: Keyword) -> bool
    ensures { result ≡ may_begin keyword }
{
    matches!(
        keyword,
        Keyword::Modifier | Keyword::AccessorModifier | Keyword::Starts(_)
    )
}

/// Whether the word begins a declaration whatever follows.
#[inline(always)]
pub fn starts_anywhere(keyword: Keyword) -> bool
    ensures { result ≡ starts_anywhere keyword }
{
    match keyword {
        Keyword::Starts(starter) => !matches!(
            starter,
            Starter::Class | Starter::Actor | Starter::Macro
        ),
        _ => false,
    }
}
