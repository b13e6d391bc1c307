//! Binary and prefix operators, each with its token; and what comes first, where a sign decides: the longest infix operator,
//! how tightly it binds, and what is refused there (Rust Reference, "Operator expressions", "Expression precedence",
//! "Punctuation").

ghost use Rattle.std.specs.Prelude.{◌≡◌, ◌<◌, length, IfSome, [], ◌∷◌, codes};
ghost use Rattle.syn_expr_tokens.specs.Reads as spec;
ghost use Rattle.syn_expr_tokens.specs.View.{un_kind, bin_kind};
ghost use Rattle.syn_tokens.specs.declared.error.ErrorKind.TheVariants.{ExpectedBinaryOperator};
ghost use Rattle.syn_expr_spec.specs.Stands as stands_spec;
ghost use Rattle.syn_expr_spec.specs.Front as front_spec;
ghost use Rattle.syn_lower_spec.specs.Mark as mark;
ghost use Rattle.syn_expr_spec.specs.Op as op_spec;
ghost use Rattle.syn_expr_tokens.specs.Signs as signs;
ghost use Rattle.syn_tokens.specs.View.{toks_of};
ghost use Rattle.syn_expr_spec.specs.Place as place_spec;
ghost use Rattle.syn_expr_spec.specs.Rule as rule_spec;

use syn_expr_spec::kinds::{BinKind, Infix, Limits, Precedence, UnKind};
use syn_lower_leaves::front::round_at;
use syn_lower_leaves::leaf::lifetime_at;
use syn_tokens::Spacing;
use syn_tokens::buffer::{Parse, ParseBuffer, ToTokens};
use syn_tokens::error::{ErrorKind, Expected, Result};
use syn_tokens::token::{
    And, AndAnd, AndEq, As, Brace, Bracket, Caret, CaretEq, Comma, Dot, DotDot, DotDotDot, Eq,
    EqEq, Ge, Gt, LArrow, Le, Lt, Minus, MinusEq, Ne, Not, Or, OrEq, OrOr, PathSep, Percent,
    PercentEq, Plus, PlusEq, Pound, Question, RArrow, Semi, Shl, ShlEq, Shr, ShrEq, Sign, Slash,
    SlashEq, Star, StarEq,
};
use syn_tokens::tree::{Span, TokenStream, TokenTree};

/// A binary operator, with its token.
#[derive(Clone, Copy, Debug)]
pub enum BinOp {
    /// `+`
    Add(Plus),
    /// `-`
    Sub(Minus),
    /// `*`
    Mul(Star),
    /// `/`
    Div(Slash),
    /// `%`
    Rem(Percent),
    /// `&&`
    And(AndAnd),
    /// `||`
    Or(OrOr),
    /// `^`
    BitXor(Caret),
    /// `&`
    BitAnd(And),
    /// `|`
    BitOr(Or),
    /// `<<`
    Shl(Shl),
    /// `>>`
    Shr(Shr),
    /// `==`
    Eq(EqEq),
    /// `<`
    Lt(Lt),
    /// `<=`
    Le(Le),
    /// `!=`
    Ne(Ne),
    /// `>=`
    Ge(Ge),
    /// `>`
    Gt(Gt),
    /// `+=`
    AddAssign(PlusEq),
    /// `-=`
    SubAssign(MinusEq),
    /// `*=`
    MulAssign(StarEq),
    /// `/=`
    DivAssign(SlashEq),
    /// `%=`
    RemAssign(PercentEq),
    /// `^=`
    BitXorAssign(CaretEq),
    /// `&=`
    BitAndAssign(AndEq),
    /// `|=`
    BitOrAssign(OrEq),
    /// `<<=`
    ShlAssign(ShlEq),
    /// `>>=`
    ShrAssign(ShrEq),
}

/// A prefix operator that makes an `ExprUnary`, with its token.
#[derive(Clone, Copy, Debug)]
pub enum UnOp {
    /// `*`
    Deref(Star),
    /// `!`
    Not(Not),
    /// `-`
    Neg(Minus),
}

/// The prefix operator that comes first, one punct, joined to the next or not.
#[tactic(auto, using(crate::proofs::Operators::prefix_present), unfolding(crate::specs::Reads::prefix_at, syn_tokens::specs::Sign::sign_text, syn_lower_spec::specs::Mark::sign_at))]
pub fn prefix_at(input: &ParseBuffer<'_>) -> Option<UnKind>
    ensures value { result ≡ spec.prefix_at input.now.rest }
    ensures present { IfSome result (λ _. 0 < length input.now.rest) }
{
    if input.peek::<Star>() {
        Some(UnKind::Deref)
    } else if input.peek::<Not>() {
        Some(UnKind::Not)
    } else if input.peek::<Minus>() {
        Some(UnKind::Neg)
    } else {
        None
    }
}

impl BinOp {
    /// The operator of a kind, at the places of its puncts.
    pub fn of_kind(kind: BinKind, spans: [Span; 3]) -> BinOp
        ensures { bin_kind result ≡ kind }
    {
        let one = [spans[0]];
        let two = [spans[0], spans[1]];
        match kind {
            BinKind::Add => BinOp::Add(Sign { spans: one }),
            BinKind::Sub => BinOp::Sub(Sign { spans: one }),
            BinKind::Mul => BinOp::Mul(Sign { spans: one }),
            BinKind::Div => BinOp::Div(Sign { spans: one }),
            BinKind::Rem => BinOp::Rem(Sign { spans: one }),
            BinKind::And => BinOp::And(Sign { spans: two }),
            BinKind::Or => BinOp::Or(Sign { spans: two }),
            BinKind::BitXor => BinOp::BitXor(Sign { spans: one }),
            BinKind::BitAnd => BinOp::BitAnd(Sign { spans: one }),
            BinKind::BitOr => BinOp::BitOr(Sign { spans: one }),
            BinKind::Shl => BinOp::Shl(Sign { spans: two }),
            BinKind::Shr => BinOp::Shr(Sign { spans: two }),
            BinKind::Eq => BinOp::Eq(Sign { spans: two }),
            BinKind::Lt => BinOp::Lt(Sign { spans: one }),
            BinKind::Le => BinOp::Le(Sign { spans: two }),
            BinKind::Ne => BinOp::Ne(Sign { spans: two }),
            BinKind::Ge => BinOp::Ge(Sign { spans: two }),
            BinKind::Gt => BinOp::Gt(Sign { spans: one }),
            BinKind::AddAssign => BinOp::AddAssign(Sign { spans: two }),
            BinKind::SubAssign => BinOp::SubAssign(Sign { spans: two }),
            BinKind::MulAssign => BinOp::MulAssign(Sign { spans: two }),
            BinKind::DivAssign => BinOp::DivAssign(Sign { spans: two }),
            BinKind::RemAssign => BinOp::RemAssign(Sign { spans: two }),
            BinKind::BitXorAssign => BinOp::BitXorAssign(Sign { spans: two }),
            BinKind::BitAndAssign => BinOp::BitAndAssign(Sign { spans: two }),
            BinKind::BitOrAssign => BinOp::BitOrAssign(Sign { spans: two }),
            BinKind::ShlAssign => BinOp::ShlAssign(Sign { spans }),
            BinKind::ShrAssign => BinOp::ShrAssign(Sign { spans }),
        }
    }

    /// Its kind: all but its places.
    pub fn kind(&self) -> BinKind
        ensures { result ≡ bin_kind self.now }
    {
        match self {
            BinOp::Add(_) => BinKind::Add,
            BinOp::Sub(_) => BinKind::Sub,
            BinOp::Mul(_) => BinKind::Mul,
            BinOp::Div(_) => BinKind::Div,
            BinOp::Rem(_) => BinKind::Rem,
            BinOp::And(_) => BinKind::And,
            BinOp::Or(_) => BinKind::Or,
            BinOp::BitXor(_) => BinKind::BitXor,
            BinOp::BitAnd(_) => BinKind::BitAnd,
            BinOp::BitOr(_) => BinKind::BitOr,
            BinOp::Shl(_) => BinKind::Shl,
            BinOp::Shr(_) => BinKind::Shr,
            BinOp::Eq(_) => BinKind::Eq,
            BinOp::Lt(_) => BinKind::Lt,
            BinOp::Le(_) => BinKind::Le,
            BinOp::Ne(_) => BinKind::Ne,
            BinOp::Ge(_) => BinKind::Ge,
            BinOp::Gt(_) => BinKind::Gt,
            BinOp::AddAssign(_) => BinKind::AddAssign,
            BinOp::SubAssign(_) => BinKind::SubAssign,
            BinOp::MulAssign(_) => BinKind::MulAssign,
            BinOp::DivAssign(_) => BinKind::DivAssign,
            BinOp::RemAssign(_) => BinKind::RemAssign,
            BinOp::BitXorAssign(_) => BinKind::BitXorAssign,
            BinOp::BitAndAssign(_) => BinKind::BitAndAssign,
            BinOp::BitOrAssign(_) => BinKind::BitOrAssign,
            BinOp::ShlAssign(_) => BinKind::ShlAssign,
            BinOp::ShrAssign(_) => BinKind::ShrAssign,
        }
    }
}

impl UnOp {
    /// The operator of a kind, at the place of its punct.
    pub fn of_kind(kind: UnKind, spans: [Span; 1]) -> UnOp
        ensures { un_kind result ≡ kind }
    {
        match kind {
            UnKind::Deref => UnOp::Deref(Sign { spans }),
            UnKind::Not => UnOp::Not(Sign { spans }),
            UnKind::Neg => UnOp::Neg(Sign { spans }),
        }
    }

    /// Its kind: all but its place.
    pub fn kind(&self) -> UnKind
        ensures { result ≡ un_kind self.now }
    {
        match self {
            UnOp::Deref(_) => UnKind::Deref,
            UnOp::Not(_) => UnKind::Not,
            UnOp::Neg(_) => UnKind::Neg,
        }
    }
}

#[tactic(auto, using(syn_tokens::proofs::Inputs::tails, crate::proofs::Operators::infix_present, crate::proofs::Operators::infix_some))]
impl Parse for BinOp {
    ghost use Rattle.syn_expr_tokens.specs.Reads.{SpellsBinOp};
    ghost use Rattle.syn_expr_spec.specs.declared.kinds.BinKind.{BinKind as Kind};

    ghost Seen = { Kind };

    ghost seen = { bin_kind };

    ghost spells = { SpellsBinOp };

    ghost least = { 1 };

    ghost refuses = { λ _ kind. kind ≡ ExpectedBinaryOperator };

    /// Takes the longest operator at the front. It is refused as `ExpectedBinaryOperator` where there is none, or one
    /// that is no variant, as `=`, `..` and `as`; `->`, `=>` and `<-` are none. It takes no memory.
    fn parse(input: &mut ParseBuffer<'_>) -> Result<Self> {
        let Some((Infix::Binary(kind), count)) = infix_at(input) else {
            return Err(input.error(ErrorKind::ExpectedBinaryOperator));
        };
        let spans = input.spans();
        input.skip(count);
        Ok(BinOp::of_kind(kind, spans))
    }
}

#[tactic(auto, using(syn_tokens::proofs::Inputs::tails))]
impl Parse for UnOp {
    ghost use Rattle.syn_expr_tokens.specs.Reads.{SpellsUnOp, wanted_prefix};
    ghost use Rattle.syn_expr_spec.specs.declared.kinds.UnKind.{UnKind as Kind};

    ghost Seen = { Kind };

    ghost seen = { un_kind };

    ghost spells = { SpellsUnOp };

    ghost least = { 1 };

    ghost refuses = { λ _ kind. kind ≡ wanted_prefix };

    /// Takes `*`, `!` or `-`, one punct, joined to the next or not. It is refused as `ExpectedToken`, of these three,
    /// where none comes first. It takes no memory.
    fn parse(input: &mut ParseBuffer<'_>) -> Result<Self> {
        let Some(kind) = prefix_at(input) else {
            return Err(input.error(ErrorKind::ExpectedToken(Expected::Three(
                Star::wanted(),
                Not::wanted(),
                Minus::wanted(),
            ))));
        };
        let spans = input.spans();
        input.skip(1);
        Ok(UnOp::of_kind(kind, spans))
    }
}

#[tactic(auto, unfolding(syn_tokens::specs::Sign::sign_text))]
impl ToTokens for BinOp {
    ghost use Rattle.syn_expr_spec.specs.Op.{binary_text};
    ghost use Rattle.syn_expr_tokens.specs.View.{bin_kind};
    ghost use Rattle.syn_tokens.specs.Sign.{sign_toks};

    ghost printed = { λ op. sign_toks (binary_text (bin_kind op)) };

    /// Puts the operator's own puncts at the end, all but the last joined.
    fn to_tokens(&self, tokens: &mut TokenStream) -> Result<()> {
        match self {
            BinOp::Add(t) => t.to_tokens(tokens),
            BinOp::Sub(t) => t.to_tokens(tokens),
            BinOp::Mul(t) => t.to_tokens(tokens),
            BinOp::Div(t) => t.to_tokens(tokens),
            BinOp::Rem(t) => t.to_tokens(tokens),
            BinOp::And(t) => t.to_tokens(tokens),
            BinOp::Or(t) => t.to_tokens(tokens),
            BinOp::BitXor(t) => t.to_tokens(tokens),
            BinOp::BitAnd(t) => t.to_tokens(tokens),
            BinOp::BitOr(t) => t.to_tokens(tokens),
            BinOp::Shl(t) => t.to_tokens(tokens),
            BinOp::Shr(t) => t.to_tokens(tokens),
            BinOp::Eq(t) => t.to_tokens(tokens),
            BinOp::Lt(t) => t.to_tokens(tokens),
            BinOp::Le(t) => t.to_tokens(tokens),
            BinOp::Ne(t) => t.to_tokens(tokens),
            BinOp::Ge(t) => t.to_tokens(tokens),
            BinOp::Gt(t) => t.to_tokens(tokens),
            BinOp::AddAssign(t) => t.to_tokens(tokens),
            BinOp::SubAssign(t) => t.to_tokens(tokens),
            BinOp::MulAssign(t) => t.to_tokens(tokens),
            BinOp::DivAssign(t) => t.to_tokens(tokens),
            BinOp::RemAssign(t) => t.to_tokens(tokens),
            BinOp::BitXorAssign(t) => t.to_tokens(tokens),
            BinOp::BitAndAssign(t) => t.to_tokens(tokens),
            BinOp::BitOrAssign(t) => t.to_tokens(tokens),
            BinOp::ShlAssign(t) => t.to_tokens(tokens),
            BinOp::ShrAssign(t) => t.to_tokens(tokens),
        }
    }
}

#[tactic(auto, unfolding(syn_tokens::specs::Sign::sign_text))]
impl ToTokens for UnOp {
    ghost use Rattle.syn_expr_spec.specs.Op.{unary_text};
    ghost use Rattle.syn_expr_tokens.specs.View.{un_kind};
    ghost use Rattle.syn_tokens.specs.Sign.{sign_toks};

    ghost printed = { λ op. sign_toks (unary_text (un_kind op)) };

    /// Puts the operator's own punct at the end, not joined to the next.
    fn to_tokens(&self, tokens: &mut TokenStream) -> Result<()> {
        match self {
            UnOp::Deref(t) => t.to_tokens(tokens),
            UnOp::Not(t) => t.to_tokens(tokens),
            UnOp::Neg(t) => t.to_tokens(tokens),
        }
    }
}

/// Whether `...` comes first where a range could go on: it is no operator, and is refused there.
pub fn refuses_dots(input: &ParseBuffer<'_>, level: Precedence) -> bool
    ensures { result ≡ stands_spec.refuses_dots level input.now.rest }
{
    above(Precedence::Range, level) && three_dots_at(input)
}

/// Whether `<-` comes first after a whole expression or after the value of `let`: it is no operator, and is refused
/// there.
pub fn refuses_arrow(input: &ParseBuffer<'_>, level: Precedence) -> bool
    ensures { result ≡ stands_spec.refuses_arrow level input.now.rest }
{
    matches!(level, Precedence::Jump | Precedence::Let) && left_arrow_at(input)
}

/// Whether brackets come first.
#[tactic(auto, unfolding(syn_expr_spec::specs::Front::bracket_at))]
pub fn bracket_at(input: &ParseBuffer<'_>) -> bool
    ensures { result ≡ front_spec.bracket_at input.now.rest }
{
    input.peek::<Bracket>()
}

/// Whether `.` comes first that doesn't begin `..`.
#[tactic(auto, unfolding(syn_expr_spec::specs::Front::dot_at, syn_tokens::specs::Sign::sign_text, syn_lower_spec::specs::Mark::sign_at))]
pub fn dot_at(input: &ParseBuffer<'_>) -> bool
    ensures { result ≡ front_spec.dot_at input.now.rest }
{
    input.peek::<Dot>() && !input.peek::<DotDot>()
}

/// Whether `?` comes first.
#[tactic(auto, unfolding(syn_expr_spec::specs::Front::question_at, syn_tokens::specs::Sign::sign_text, syn_lower_spec::specs::Mark::sign_at))]
pub fn question_at(input: &ParseBuffer<'_>) -> bool
    ensures { result ≡ front_spec.question_at input.now.rest }
{
    input.peek::<Question>()
}

/// Whether `<-` comes first, a token that is no operator.
#[tactic(auto, unfolding(syn_expr_spec::specs::Front::left_arrow_at, syn_tokens::specs::Sign::sign_text, syn_lower_spec::specs::Mark::sign_at))]
pub fn left_arrow_at(input: &ParseBuffer<'_>) -> bool
    ensures { result ≡ front_spec.left_arrow_at input.now.rest }
{
    input.peek::<LArrow>()
}

/// Whether `...` comes first, a token that is no operator.
#[tactic(auto, unfolding(syn_expr_spec::specs::Front::three_dots_at, syn_tokens::specs::Sign::sign_text, syn_lower_spec::specs::Mark::sign_at))]
pub fn three_dots_at(input: &ParseBuffer<'_>) -> bool
    ensures { result ≡ front_spec.three_dots_at input.now.rest }
{
    input.peek::<DotDotDot>()
}

/// Whether braces come first.
#[tactic(auto, unfolding(syn_lower_spec::specs::Mark::brace_at))]
pub fn brace_at(input: &ParseBuffer<'_>) -> bool
    ensures { result ≡ mark.brace_at input.now.rest }
{
    input.peek::<Brace>()
}

/// Whether `as` comes first.
#[tactic(auto, unfolding(syn_tokens::specs::Sign::word_text, syn_lower_spec::specs::Mark::word_at))]
pub fn as_at(input: &ParseBuffer<'_>) -> bool
    ensures { result ≡ mark.word_at (codes "as") input.now.rest }
{
    input.peek::<As>()
}

/// Whether a trailer comes first, which goes on a path, a call or another base: parentheses, brackets, `?`, or `.` that
/// doesn't begin `..`.
#[tactic(auto, unfolding(syn_expr_spec::specs::Front::trailer_at))]
pub fn trailer_at(input: &ParseBuffer<'_>) -> bool
    ensures { result ≡ front_spec.trailer_at input.now.rest }
{
    round_at(input) || bracket_at(input) || question_at(input) || dot_at(input)
}

/// Whether `!` comes first that doesn't begin `!=`.
#[tactic(auto, unfolding(syn_tokens::specs::Sign::sign_text, syn_lower_spec::specs::Mark::sign_at))]
fn not_begins(input: &ParseBuffer<'_>) -> bool
    ensures { result ≡ front_spec.sign_but (codes "!") (codes "!=" ∷ []) input.now.rest }
{
    input.peek::<Not>() && !input.peek::<Ne>()
}

/// Whether `-` comes first that begins neither `-=` nor `->`.
#[tactic(auto, unfolding(syn_tokens::specs::Sign::sign_text, syn_lower_spec::specs::Mark::sign_at))]
fn minus_begins(input: &ParseBuffer<'_>) -> bool
    ensures { result ≡ front_spec.sign_but (codes "-") (codes "-=" ∷ codes "->" ∷ []) input.now.rest }
{
    input.peek::<Minus>() && !input.peek::<MinusEq>() && !input.peek::<RArrow>()
}

/// Whether `*` comes first that doesn't begin `*=`.
#[tactic(auto, unfolding(syn_tokens::specs::Sign::sign_text, syn_lower_spec::specs::Mark::sign_at))]
fn star_begins(input: &ParseBuffer<'_>) -> bool
    ensures { result ≡ front_spec.sign_but (codes "*") (codes "*=" ∷ []) input.now.rest }
{
    input.peek::<Star>() && !input.peek::<StarEq>()
}

/// Whether `|` comes first that doesn't begin `|=`: it opens the inputs of a closure.
#[tactic(auto, unfolding(syn_tokens::specs::Sign::sign_text, syn_lower_spec::specs::Mark::sign_at))]
fn or_begins(input: &ParseBuffer<'_>) -> bool
    ensures { result ≡ front_spec.sign_but (codes "|") (codes "|=" ∷ []) input.now.rest }
{
    input.peek::<Or>() && !input.peek::<OrEq>()
}

/// Whether `&` comes first that doesn't begin `&=`.
#[tactic(auto, unfolding(syn_tokens::specs::Sign::sign_text, syn_lower_spec::specs::Mark::sign_at))]
fn and_begins(input: &ParseBuffer<'_>) -> bool
    ensures { result ≡ front_spec.sign_but (codes "&") (codes "&=" ∷ []) input.now.rest }
{
    input.peek::<And>() && !input.peek::<AndEq>()
}

/// Whether `<` comes first that begins neither `<=` nor `<<=`: it opens a qualified path.
#[tactic(auto, unfolding(syn_tokens::specs::Sign::sign_text, syn_lower_spec::specs::Mark::sign_at))]
fn less_begins(input: &ParseBuffer<'_>) -> bool
    ensures { result ≡ front_spec.sign_but (codes "<") (codes "<=" ∷ codes "<<=" ∷ []) input.now.rest }
{
    input.peek::<Lt>() && !input.peek::<Le>() && !input.peek::<ShlEq>()
}

/// Whether `..`, `::` or `#` comes first.
#[tactic(auto, unfolding(syn_tokens::specs::Sign::sign_text, syn_lower_spec::specs::Mark::sign_at))]
fn range_path_or_attribute_begins(input: &ParseBuffer<'_>) -> bool
    ensures { result ≡ front_spec.some_sign (codes ".." ∷ codes "::" ∷ codes "#" ∷ []) input.now.rest }
{
    input.peek::<DotDot>() || input.peek::<PathSep>() || input.peek::<Pound>()
}

/// Whether a sign comes first that begins an expression.
#[tactic(auto, unfolding(syn_expr_spec::specs::Front::sign_begins))]
fn sign_begins(input: &ParseBuffer<'_>) -> bool
    ensures { result ≡ front_spec.sign_begins input.now.rest }
{
    not_begins(input)
        || minus_begins(input)
        || star_begins(input)
        || or_begins(input)
        || and_begins(input)
        || less_begins(input)
        || range_path_or_attribute_begins(input)
        || lifetime_at(input)
}

/// Whether an expression begins, so that a `return`, `break` or `yield` before it has a value (Rust Reference,
/// "Expressions").
#[tactic(auto, unfolding(syn_expr_spec::specs::Front::begins_expr))]
pub fn begins_expr(input: &ParseBuffer<'_>) -> bool
    ensures { result ≡ front_spec.begins_expr input.now.rest }
{
    match input.trees() {
        [TokenTree::Punct(_), ..] => sign_begins(input),
        [TokenTree::Ident(_), ..] => !as_at(input),
        [TokenTree::Literal(_) | TokenTree::Group(_), ..] => true,
        [] => false,
    }
}

/// Whether a sign comes first that ends a range which has no end.
#[tactic(auto, unfolding(syn_tokens::specs::Sign::sign_text, syn_lower_spec::specs::Mark::sign_at))]
fn sign_ends_range(input: &ParseBuffer<'_>) -> bool
    ensures { result ≡ front_spec.some_sign (codes "," ∷ codes ";" ∷ codes "?" ∷ codes "=" ∷ codes "+" ∷ codes "/" ∷ codes "%" ∷ codes "^" ∷ codes ">" ∷ codes "<=" ∷ codes "!=" ∷ codes "-=" ∷ codes "*=" ∷ codes "&=" ∷ codes "|=" ∷ codes "<<=" ∷ []) input.now.rest }
{
    input.peek::<Comma>()
        || input.peek::<Semi>()
        || input.peek::<Question>()
        || input.peek::<Eq>()
        || input.peek::<Plus>()
        || input.peek::<Slash>()
        || input.peek::<Percent>()
        || input.peek::<Caret>()
        || input.peek::<Gt>()
        || input.peek::<Le>()
        || input.peek::<Ne>()
        || input.peek::<MinusEq>()
        || input.peek::<StarEq>()
        || input.peek::<AndEq>()
        || input.peek::<OrEq>()
        || input.peek::<ShlEq>()
}

/// Whether what comes first may follow `..` without an end: nothing, one of some signs, or `as`; and in a condition the
/// brace of its block (Rust Reference, "Range expressions").
#[tactic(auto, unfolding(syn_expr_spec::specs::Front::ends_open_range))]
pub fn ends_open_range(input: &ParseBuffer<'_>, condition: bool) -> bool
    ensures { result ≡ front_spec.ends_open_range condition input.now.rest }
{
    input.is_empty()
        || sign_ends_range(input)
        || dot_at(input)
        || as_at(input)
        || condition && brace_at(input)
}

/// The character at the front, a zero where no punct is there.
#[tactic(auto, unfolding(crate::specs::Signs::first))]
fn first(trees: &[TokenTree]) -> char
    ensures { result ≡ signs.first (toks_of trees.now) }
{
    match trees {
        [TokenTree::Punct(punct), ..] => punct.ch,
        _ => '\0',
    }
}

/// The trees after a punct that they are joined to, none where no such punct is there.
#[tactic(auto, unfolding(crate::specs::Signs::behind))]
fn behind(trees: &[TokenTree]) -> &[TokenTree]
    ensures { toks_of result.now ≡ signs.behind (toks_of trees.now) }
{
    match trees {
        [TokenTree::Punct(punct), more @ ..] if punct.spacing == Spacing::Joint => more,
        _ => &[],
    }
}

/// An operator alone, or after it `=`.
fn compound(second: char, equal: BinKind, once: BinKind) -> Option<(Infix, usize)>
    ensures { result ≡ signs.compound second equal once }
{
    if second == '=' {
        Some((Infix::Binary(equal), 2))
    } else {
        Some((Infix::Binary(once), 1))
    }
}

/// An operator alone, doubled, or after it `=`.
fn doubled(
    first: char,
    second: char,
    twice: BinKind,
    equal: BinKind,
    once: BinKind,
) -> Option<(Infix, usize)>
    ensures { result ≡ signs.doubled first second twice equal once }
{
    if second == first {
        Some((Infix::Binary(twice), 2))
    } else {
        compound(second, equal, once)
    }
}

/// A shift, doubled from one of `<` and `>`, alone or after it `=`.
fn shift(third: char, equal: BinKind, once: BinKind) -> Option<(Infix, usize)>
    ensures { result ≡ signs.shift third equal once }
{
    if third == '=' {
        Some((Infix::Binary(equal), 3))
    } else {
        Some((Infix::Binary(once), 2))
    }
}

/// The longest operator of three characters that are joined, and of how many puncts it is. `=>`, `->`, `<-` and `...` are
/// tokens, but no operators.
#[tactic(auto, unfolding(crate::specs::Signs::operator))]
fn operator(a: char, b: char, c: char) -> Option<(Infix, usize)>
    ensures { result ≡ signs.operator a b c }
{
    match a {
        '+' => compound(b, BinKind::AddAssign, BinKind::Add),
        '-' if b == '>' => None,
        '-' => compound(b, BinKind::SubAssign, BinKind::Sub),
        '*' => compound(b, BinKind::MulAssign, BinKind::Mul),
        '/' => compound(b, BinKind::DivAssign, BinKind::Div),
        '%' => compound(b, BinKind::RemAssign, BinKind::Rem),
        '^' => compound(b, BinKind::BitXorAssign, BinKind::BitXor),
        '&' => doubled('&', b, BinKind::And, BinKind::BitAndAssign, BinKind::BitAnd),
        '|' => doubled('|', b, BinKind::Or, BinKind::BitOrAssign, BinKind::BitOr),
        '<' if b == '<' => shift(c, BinKind::ShlAssign, BinKind::Shl),
        '<' if b == '-' => None,
        '<' => compound(b, BinKind::Le, BinKind::Lt),
        '>' if b == '>' => shift(c, BinKind::ShrAssign, BinKind::Shr),
        '>' => compound(b, BinKind::Ge, BinKind::Gt),
        '=' if b == '=' => Some((Infix::Binary(BinKind::Eq), 2)),
        '=' if b == '>' => None,
        '=' => Some((Infix::Assign, 1)),
        '!' if b == '=' => Some((Infix::Binary(BinKind::Ne), 2)),
        '.' if b == '.' && c == '=' => Some((Infix::Range(Limits::Closed), 3)),
        '.' if b == '.' && c != '.' => Some((Infix::Range(Limits::HalfOpen), 2)),
        _ => None,
    }
}

/// The infix operator that comes first, the longest, and of how many tokens it is: over joined puncts, or `as`.
#[tactic(auto, using(crate::proofs::Longest::operator_at), unfolding(syn_expr_spec::specs::Op::infix_at, syn_tokens::specs::Sign::word_text, syn_lower_spec::specs::Mark::word_at))]
pub fn infix_at(input: &ParseBuffer<'_>) -> Option<(Infix, usize)>
    ensures { result ≡ op_spec.infix_at input.now.rest }
{
    if input.peek::<As>() {
        return Some((Infix::Cast, 1));
    }
    let once = input.trees();
    let twice = behind(once);
    operator(first(once), first(twice), first(behind(twice)))
}

/// The place of a level in their order, the loosest first.
pub fn rank(level: Precedence) -> u8
    ensures { result ≡ place_spec.rank level }
{
    level as u8
}

/// Whether a level binds tighter than another.
pub fn above(level: Precedence, other: Precedence) -> bool
    ensures { result ≡ place_spec.above level other }
{
    rank(level) > rank(other)
}

/// Whether an expression at a level takes an infix operator of another: those above it, and at `Assign` those of
/// `Assign` too, which group to the right.
pub fn takes(level: Precedence, operator: Precedence) -> bool
    ensures { result ≡ place_spec.takes level operator }
{
    above(operator, level) || matches!((level, operator), (Precedence::Assign, Precedence::Assign))
}

/// The looser one of two levels.
pub fn lower(first: Precedence, second: Precedence) -> Precedence
    ensures { result ≡ rule_spec.lower first second }
{
    if above(first, second) { second } else { first }
}

/// The level of a binary operator.
pub fn binary_level(op: BinKind) -> Precedence
    ensures { result ≡ op_spec.binary_level op }
{
    match op {
        BinKind::Add | BinKind::Sub => Precedence::Sum,
        BinKind::Mul | BinKind::Div | BinKind::Rem => Precedence::Product,
        BinKind::And => Precedence::And,
        BinKind::Or => Precedence::Or,
        BinKind::BitXor => Precedence::BitXor,
        BinKind::BitAnd => Precedence::BitAnd,
        BinKind::BitOr => Precedence::BitOr,
        BinKind::Shl | BinKind::Shr => Precedence::Shift,
        BinKind::Eq | BinKind::Lt | BinKind::Le | BinKind::Ne | BinKind::Ge | BinKind::Gt =>
            Precedence::Compare,
        BinKind::AddAssign
        | BinKind::SubAssign
        | BinKind::MulAssign
        | BinKind::DivAssign
        | BinKind::RemAssign
        | BinKind::BitXorAssign
        | BinKind::BitAndAssign
        | BinKind::BitOrAssign
        | BinKind::ShlAssign
        | BinKind::ShrAssign => Precedence::Assign,
    }
}

/// The level of an infix operator, which is that of its right operand's place too.
pub fn level(op: Infix) -> Precedence
    ensures { result ≡ op_spec.level op }
{
    match op {
        Infix::Binary(op) => binary_level(op),
        Infix::Assign => Precedence::Assign,
        Infix::Range(_) => Precedence::Range,
        Infix::Cast => Precedence::Cast,
    }
}

/// Whether it compares: no operand of a comparison is one, unless it is in parentheses.
pub fn is_comparison(op: Infix) -> bool
    ensures { result ≡ op_spec.is_comparison op }
{
    matches!(
        op,
        Infix::Binary(
            BinKind::Eq | BinKind::Lt | BinKind::Le | BinKind::Ne | BinKind::Ge | BinKind::Gt
        )
    )
}

/// Whether it is that of a range.
pub fn is_range_op(op: Infix) -> bool
    ensures { result ≡ op_spec.is_range_op op }
{
    matches!(op, Infix::Range(_))
}
