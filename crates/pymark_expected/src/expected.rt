//! What was expected of a text.

use thiserror::Error;

/// The sentence of [`Expected::SpecifierEnd`].
const SPECIFIER_END: &str =
    "Expected comma (within version specifier), semicolon (after version specifier) or end";

/// What was expected at a place of a text. It is displayed as a sentence.
#[derive(Clone, Copy, PartialEq, Eq, Debug, Error)]
pub enum Expected {
    /// The name that a requirement begins with.
    #[error("Expected package name at the start of dependency specifier")]
    Name,
    /// Behind the name of a requirement: specifiers, a marker or the end.
    #[error("Expected semicolon (after name with no version specifier) or end")]
    NameEnd,
    /// The `]` behind extras.
    #[error("Expected matching RIGHT_BRACKET for LEFT_BRACKET, after extras")]
    ClosingBracket,
    /// A comma between two extras.
    #[error("Expected comma between extra names")]
    ExtrasComma,
    /// An extra behind a comma.
    #[error("Expected extra name after comma")]
    ExtraName,
    /// The URL behind `@`.
    #[error("Expected URL after @")]
    Url,
    /// Behind a URL: a marker or the end.
    #[error("Expected semicolon (after URL and whitespace) or end")]
    UrlEnd,
    /// Behind a specifier of a requirement: another one, a marker or the end.
    #[error("{}", SPECIFIER_END)]
    SpecifierEnd,
    /// The `)` behind the specifiers of a requirement.
    #[error("Expected matching RIGHT_PARENTHESIS for LEFT_PARENTHESIS, after version specifier")]
    ClosingSpecifiers,
    /// Another operator, since `.*` stands behind the version.
    #[error(".* suffix can only be used with `==` or `!=` operators")]
    PrefixOperator,
    /// Another operator, since the version has a local part.
    #[error("Local version label can only be used with `==` or `!=` operators")]
    LocalOperator,
    /// A version whose numbers have at most 128 bits.
    #[error("Expected a version with numbers of at most 128 bits")]
    SmallNumbers,
    /// The operator that a specifier begins with.
    #[error("Expected version operator, one of ~=, ==, !=, <=, >=, <, >, ===")]
    VersionOperator,
    /// A version behind an operator of specifiers.
    #[error("Expected a version after the version operator")]
    Version,
    /// Behind a specifier of a set: another one or the end.
    #[error("Expected comma (after version specifier) or end")]
    SetEnd,
    /// The end, behind a specifier.
    #[error("Expected end of version specifier")]
    OneSpecifier,
    /// A variable or a quoted text in a marker.
    #[error("Expected a marker variable or quoted string")]
    Operand,
    /// A quoted text in which all characters are allowed.
    #[error("Expected a quoted string without backslash and control characters")]
    PlainText,
    /// An operator in a marker.
    #[error("Expected marker operator, one of <=, <, !=, ==, >=, >, ~=, ===, in, not in")]
    MarkerOperator,
    /// The `in` of `not in`.
    #[error("Expected 'in' after 'not'")]
    In,
    /// The `)` behind a marker.
    #[error("Expected matching RIGHT_PARENTHESIS for LEFT_PARENTHESIS, after marker expression")]
    ClosingMarker,
    /// The end of a marker.
    #[error("Expected end of marker expression")]
    MarkerEnd,
    /// The end of a requirement, behind its marker.
    #[error("Expected end of dependency specifier")]
    RequirementEnd,
    /// Fewer parentheses in a marker.
    #[error("Expected at most 64 open parentheses")]
    FewParentheses,
    /// Another operand, since a set is no text.
    #[error("extras and dependency_groups can only be used right of `in` or `not in`")]
    Text,
}
