// Laws of the definitions: a call of each brings it in as a fact.

ghost use Rattle.swift_lexer.specs.Characters.{AcceptedTextsAreUtf8, TokensAreOfCharacters};
ghost use Rattle.swift_lexer.specs.Laws.{GroupsHoldTheTokens, OneGroupOutcome, OneTokenOutcome, SomeGroupOutcome, SomeTokenOutcome, TokenBytes, TokensOfATextTile};

/// A text is either accepted with one list of tokens or refused with one fault.
pub fn one_token_outcome()
    ensures { OneTokenOutcome }
{}

/// A text is accepted or refused.
pub fn some_token_outcome()
    ensures { SomeTokenOutcome }
{}

/// Tokens and trivia, joined, are the text; each is spelled as it should, and no token could go on.
pub fn tokens_tile()
    ensures { TokensOfATextTile }
{}

/// No token of an accepted text begins or ends inside a character.
pub fn tokens_are_of_characters()
    ensures { TokensAreOfCharacters }
{}

/// An accepted text is UTF-8.
pub fn accepted_texts_are_utf8()
    ensures { AcceptedTextsAreUtf8 }
{}

/// A token has a byte, and a bracket is one byte.
pub fn token_bytes()
    ensures { TokenBytes }
{}

/// The tokens of a text are grouped in one way or refused with one fault.
pub fn one_group_outcome()
    ensures { OneGroupOutcome }
{}

/// The tokens of a text are grouped or refused, as the function says.
pub fn some_group_outcome()
    ensures { SomeGroupOutcome }
{}

/// The tokens of the groups are the tokens that were grouped.
pub fn groups_hold_the_tokens()
    ensures { GroupsHoldTheTokens }
{}
