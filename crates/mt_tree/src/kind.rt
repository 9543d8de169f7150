/// What a token is. Its text tells tokens of one kind apart.
#[derive(Clone, Copy, Debug, PartialEq, Eq)]
pub enum Kind {
    /// A name that isn't reserved.
    Name,
    /// A reserved word, also where the grammar takes it as a name.
    Reserved,
    /// A whole number in decimal digits, at most 9007199254740991.
    Number,
    /// A text of code with its quotes.
    Text,
    /// A sign of code, or the `=` of a tag.
    Punctuator,
    /// `<` and the name of the tag.
    TagOpen,
    /// The name of an attribute.
    AttributeName,
    /// The value of an attribute with its quotes.
    Quoted,
    /// The `>` or `/>` of a tag.
    TagEnd,
    /// A text among the children of an element.
    ChildText,
    /// `</`, the name of the tag, and `>`.
    CloseTag,
    /// `~{`
    TildeOpen,
    /// `${`
    DollarOpen,
}
