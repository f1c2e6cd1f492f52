// What an element is.

ghost use Rattle.std.specs.Prelude.{◌≡◌};
ghost use Rattle.element_marks.specs.Sorts.{is_word, is_quoted, is_name, is_pound, is_builtin_pound, is_use, is_at, is_comma, is_colon, is_semicolon, is_dot, is_equals, is_operator, is_parentheses, is_braces, is_pattern, is_at_or_pound};

use crate::mark::{Mark, Sort};

pub fn is_word(mark: &Mark) -> bool
    ensures { result ≡ is_word mark.now }
{
    matches!(mark.sort, Sort::Word)
}

pub fn is_quoted(mark: &Mark) -> bool
    ensures { result ≡ is_quoted mark.now }
{
    matches!(mark.sort, Sort::Quoted)
}

pub fn is_name(mark: &Mark) -> bool
    ensures { result ≡ is_name mark.now }
{
    matches!(mark.sort, Sort::Word | Sort::Quoted)
}

pub fn is_pound(mark: &Mark) -> bool
    ensures { result ≡ is_pound mark.now }
{
    matches!(mark.sort, Sort::Pound | Sort::BuiltinPound)
}

pub fn is_builtin_pound(mark: &Mark) -> bool
    ensures { result ≡ is_builtin_pound mark.now }
{
    matches!(mark.sort, Sort::BuiltinPound)
}

pub fn is_use(mark: &Mark) -> bool
    ensures { result ≡ is_use mark.now }
{
    matches!(mark.sort, Sort::Pound)
}

pub fn is_at(mark: &Mark) -> bool
    ensures { result ≡ is_at mark.now }
{
    matches!(mark.sort, Sort::At)
}

pub fn is_comma(mark: &Mark) -> bool
    ensures { result ≡ is_comma mark.now }
{
    matches!(mark.sort, Sort::Comma)
}

pub fn is_colon(mark: &Mark) -> bool
    ensures { result ≡ is_colon mark.now }
{
    matches!(mark.sort, Sort::Colon)
}

pub fn is_semicolon(mark: &Mark) -> bool
    ensures { result ≡ is_semicolon mark.now }
{
    matches!(mark.sort, Sort::Semicolon)
}

pub fn is_dot(mark: &Mark) -> bool
    ensures { result ≡ is_dot mark.now }
{
    matches!(mark.sort, Sort::Dot)
}

pub fn is_equals(mark: &Mark) -> bool
    ensures { result ≡ is_equals mark.now }
{
    matches!(mark.sort, Sort::Equals)
}

pub fn is_operator(mark: &Mark) -> bool
    ensures { result ≡ is_operator mark.now }
{
    matches!(mark.sort, Sort::Equals | Sort::Arrow | Sort::Operator)
}

pub fn is_parentheses(mark: &Mark) -> bool
    ensures { result ≡ is_parentheses mark.now }
{
    matches!(mark.sort, Sort::Parentheses)
}

pub fn is_braces(mark: &Mark) -> bool
    ensures { result ≡ is_braces mark.now }
{
    matches!(mark.sort, Sort::Braces)
}

pub fn is_pattern(mark: &Mark) -> bool
    ensures { result ≡ is_pattern mark.now }
{
    matches!(mark.sort, Sort::Word | Sort::Quoted | Sort::Parentheses)
}

/// Whether it begins with an `@` or a `#`.
pub fn is_at_or_pound(mark: &Mark) -> bool
    ensures { result ≡ is_at_or_pound mark.now }
{
    matches!(mark.sort, Sort::Pound | Sort::BuiltinPound | Sort::At)
}
