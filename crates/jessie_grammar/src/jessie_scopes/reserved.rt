//! Reserved words.
ghost use Rattle.std.specs.Prelude.{◌≡◌};
ghost use Rattle.std.specs.Str.{bytes_eq};
ghost use Rattle.jessie_grammar.specs.Reserved as reserved;

fn is(word: &str, name: &str) -> bool
    ensures { result ≡ bytes_eq word.now name.now }
{
    word == name
}

/// Whether it is one of the words that the grammar quotes, up to `return`.
fn is_quoted_word(word: &str) -> bool
    ensures { result ≡ reserved.is_quoted_word word.now }
{
    is(word, "const")
        || is(word, "let")
        || is(word, "export")
        || is(word, "if")
        || is(word, "else")
        || is(word, "while")
        || is(word, "for")
        || is(word, "of")
        || is(word, "return")
}

/// Whether it is one of the words that the grammar quotes, from `throw` on.
fn is_late_quoted_word(word: &str) -> bool
    ensures { result ≡ reserved.is_late_quoted_word word.now }
{
    is(word, "throw")
        || is(word, "try")
        || is(word, "catch")
        || is(word, "E")
        || is(word, "AmountMath")
        || is(word, "true")
        || is(word, "false")
        || is(word, "null")
}

/// Whether it is one of the built-in functions.
pub fn is_built_in(word: &str) -> bool
    ensures { result ≡ reserved.is_built_in word.now }
{
    is(word, "when")
        || is(word, "Far")
        || is(word, "harden")
        || is(word, "keys")
        || is(word, "len")
        || is(word, "push")
        || is(word, "put")
}

/// Whether it is one of words of JavaScript, from `async` to `default`.
fn is_first_word(word: &str) -> bool
    ensures { result ≡ reserved.is_first_word word.now }
{
    is(word, "async")
        || is(word, "await")
        || is(word, "break")
        || is(word, "case")
        || is(word, "class")
        || is(word, "continue")
        || is(word, "debugger")
        || is(word, "default")
}

/// Whether it is one of words of JavaScript, from `delete` to `import`.
fn is_second_word(word: &str) -> bool
    ensures { result ≡ reserved.is_second_word word.now }
{
    is(word, "delete")
        || is(word, "do")
        || is(word, "enum")
        || is(word, "extends")
        || is(word, "finally")
        || is(word, "function")
        || is(word, "import")
}

/// Whether it is one of words of JavaScript, from `in` to `typeof`.
fn is_third_word(word: &str) -> bool
    ensures { result ≡ reserved.is_third_word word.now }
{
    is(word, "in")
        || is(word, "instanceof")
        || is(word, "new")
        || is(word, "super")
        || is(word, "switch")
        || is(word, "this")
        || is(word, "typeof")
}

/// Whether it is one of words of JavaScript, from `undefined` on.
fn is_fourth_word(word: &str) -> bool
    ensures { result ≡ reserved.is_fourth_word word.now }
{
    is(word, "undefined")
        || is(word, "var")
        || is(word, "void")
        || is(word, "with")
        || is(word, "yield")
        || is(word, "NaN")
        || is(word, "Infinity")
}

/// Whether the word is no name.
pub fn is_reserved(word: &str) -> bool
    ensures { result ≡ reserved.is_reserved word.now }
{
    is_quoted_word(word)
        || is_late_quoted_word(word)
        || is_built_in(word)
        || is_first_word(word)
        || is_second_word(word)
        || is_third_word(word)
        || is_fourth_word(word)
}
