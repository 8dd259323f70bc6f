//! The names of procedures.
ghost use Rattle.std.specs.Prelude.{◌≡◌, ◌∷◌, [], codes};
ghost use Rattle.std.specs.List.{list_any, list_all};
ghost use Rattle.std.specs.Str.{bytes_eq};
ghost use Rattle.cv_core.specs.Grammar as spec;
ghost use Rattle.std.specs.Prelude.{◌||◌};

/// Whether a byte may begin a name.
fn is_letter(byte: u8) -> bool
    ensures { result ≡ spec.is_letter byte }
{
    matches!(byte, b'A'..=b'Z' | b'a'..=b'z' | b'_' | b'$')
}

/// Whether a byte may stand in a name.
fn is_name_byte(byte: u8) -> bool
    ensures { result ≡ (spec.is_letter byte || spec.is_digit byte) }
{
    is_letter(byte) || matches!(byte, b'0'..=b'9')
}

/// Whether all bytes may stand in a name.
fn are_name_bytes(bytes: &[u8]) -> bool
    ensures { result ≡ list_all (λ d. spec.is_letter d || spec.is_digit d) bytes.now }
{
    bytes.iter().all(|byte| is_name_byte(*byte))
}

/// Whether a token begins as a name and has only bytes of names.
fn begins_name(token: &[u8]) -> bool
    ensures { result ≡ spec.begins_name token.now }
{
    let [first, others @ ..] = token else {
        return false;
    };
    is_letter(*first) && are_name_bytes(others)
}

/// Whether a token is this word.
fn is_word(token: &[u8], word: &[u8]) -> bool
    ensures { result ≡ bytes_eq token.now word.now }
{
    token == word
}

/// Whether a token is one of these words of declarations.
fn is_declaring(token: &[u8]) -> bool
    ensures { result ≡ list_any (bytes_eq token.now) (codes "global" ∷ codes "buf" ∷ codes "ptr" ∷ codes "int" ∷ codes "literal" ∷ codes "proc" ∷ []) }
{
    is_word(token, b"global")
        || is_word(token, b"buf")
        || is_word(token, b"ptr")
        || is_word(token, b"int")
        || is_word(token, b"literal")
        || is_word(token, b"proc")
}

/// Whether a token is one of these words of headings and locals.
fn is_heading(token: &[u8]) -> bool
    ensures { result ≡ list_any (bytes_eq token.now) (codes "void" ∷ codes "char" ∷ codes "extern" ∷ codes "pptr" ∷ codes "iptr" ∷ codes "pcell" ∷ []) }
{
    is_word(token, b"void")
        || is_word(token, b"char")
        || is_word(token, b"extern")
        || is_word(token, b"pptr")
        || is_word(token, b"iptr")
        || is_word(token, b"pcell")
}

/// Whether a token is one of these words of statements.
fn is_moving(token: &[u8]) -> bool
    ensures { result ≡ list_any (bytes_eq token.now) (codes "icell" ∷ codes "load" ∷ codes "store" ∷ codes "get" ∷ codes "put" ∷ codes "diff" ∷ []) }
{
    is_word(token, b"icell")
        || is_word(token, b"load")
        || is_word(token, b"store")
        || is_word(token, b"get")
        || is_word(token, b"put")
        || is_word(token, b"diff")
}

/// Whether a token is one of these words of jumps and calls.
fn is_jumping(token: &[u8]) -> bool
    ensures { result ≡ list_any (bytes_eq token.now) (codes "goto" ∷ codes "if" ∷ codes "call" ∷ codes "return" ∷ codes "null" ∷ codes "result" ∷ []) }
{
    is_word(token, b"goto")
        || is_word(token, b"if")
        || is_word(token, b"call")
        || is_word(token, b"return")
        || is_word(token, b"null")
        || is_word(token, b"result")
}

/// Whether a token is a word that is no name.
fn is_reserved(token: &[u8]) -> bool
    ensures { result ≡ list_any (bytes_eq token.now) spec.reserved }
{
    is_declaring(token) || is_heading(token) || is_moving(token) || is_jumping(token)
}

/// Whether a token is a name.
pub(crate) fn is_name(token: &[u8]) -> bool
    ensures { result ≡ spec.is_name token.now }
{
    begins_name(token) && !is_reserved(token)
}
