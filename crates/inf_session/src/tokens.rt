//! The taking of a token that was read.
ghost use Rattle.std.specs.Prelude.{◌≡◌, IfOk, is_some, true};
ghost use Rattle.inf_compilation.specs.{Context.handed, Works.work as work_of};
ghost use Rattle.inf_conditionals.specs.declared.filtered.Filtered.{Filtered as Judged};
ghost use Rattle.inf_reader.specs.{Handing.is_between, Standing.standing};
ghost use Rattle.inf_session.specs.Taking.{quoted_behind, quoted_bytes, token_at, token_taken};
ghost use Rattle.inf_unit.specs.{Atoms.is_short, Spelled.spelled};

use inf_compilation::compilation::Compilation;
use inf_compilation::context::Context;
use inf_conditionals::conditionals::Conditionals;
use inf_conditionals::filtered::Site;
use inf_lexer::Token;
use inf_reader::progress::Progress;
use inf_scanner::{BadToken, TokenKind};
use inf_settings::bounds::Bounds;
use inf_unit::tokens::SourceToken;
use std::alloc::AllocError;

/// Takes the token `token`, which was read with the bytes `bytes`. The conditionals say whether it is handed on and what there is
/// to tell of a condition, and the reader takes the tokens that are handed on. Returns the number of bytes of the longest quoted
/// token then, before which it was `quoted`.
#[inline(always)]
#[tactic(auto, using(crate::proofs::Passing::passes_inside, crate::proofs::Passing::passes_over))]
pub(crate) fn take<B: Bounds>(
    context: &Context<'_>,
    token: Token,
    bytes: &[u8],
    quoted: usize,
    conditionals: &mut Conditionals,
    progress: &mut Progress<B>,
) -> Result<usize, AllocError>
    requires { is_short token.kind bytes.now ≡ true }
    ensures { let before = standing progress.old in
        let spelled = token_at (is_between before.reading) token.kind bytes.now token.place before.work in
        IfOk result (λ longest. record { conditions = conditionals.new; stand = standing progress.new; quoted = longest }
        ≡ token_taken B.most (handed context.now) spelled conditionals.old before quoted) }
{
    if conditionals.skips(token.kind, bytes) {
        return Ok(quoted);
    }
    let spelled = SourceToken::new(token.kind, bytes, token.place, false);
    if !progress.is_inside() {
        return take_other(context, &spelled, quoted, conditionals, progress);
    }
    let site = progress.site(context.settings);
    if !conditionals.passes(site, &spelled) {
        return take_other(context, &spelled, quoted, conditionals, progress);
    }
    progress.take_inside(context, &spelled)?;
    Ok(quoted_behind(site, true, &spelled, quoted))
}

/// Takes `token`, as `take` does, which is no name of a class unless the place of the reading makes it one. It stands apart, since of most
/// tokens it is known that they are kept and nothing else comes of them.
#[inline(never)]
fn take_other<B: Bounds>(
    context: &Context<'_>,
    token: &SourceToken<'_>,
    quoted: usize,
    conditionals: &mut Conditionals,
    progress: &mut Progress<B>,
) -> Result<usize, AllocError>
    ensures { let before = standing progress.old in let t = spelled token.now in
        let named = token_at (is_between before.reading) t.kind t.bytes t.place before.work in
        IfOk result (λ longest. record { conditions = conditionals.new; stand = standing progress.new; quoted = longest }
        ≡ token_taken B.most (handed context.now) named conditionals.old before quoted) }
{
    let site = progress.site(context.settings);
    let named = token_at(site.is_between, token, &progress.work);
    let judged = conditionals.take(site, &progress.work.output, &named)?;
    conditionals.tell(
        context.files,
        &mut progress.work.report,
        &mut progress.work.output,
    )?;
    progress.take_judged(context, &named, judged)?;
    Ok(quoted_behind(site, judged.token.is_some(), &named, quoted))
}

/// Returns the number of bytes of the longest quoted token behind `token`, which is handed on if `is_handed`, and before which it was
/// `quoted`. Tokens that are not handed on, and those that are passed over behind a bad one, do not count.
fn quoted_behind(site: Site, is_handed: bool, token: &SourceToken<'_>, quoted: usize) -> usize
    ensures { (judged : Judged) → is_handed ≡ is_some judged.token → result ≡ quoted_behind site judged (spelled token.now) quoted }
{
    if site.is_quiet || !is_handed {
        return quoted;
    }
    let bytes = quoted_bytes(token);
    if quoted < bytes { bytes } else { quoted }
}

/// Returns the number of bytes between the quotes of `token`; 0 where it has no quotes.
fn quoted_bytes(token: &SourceToken<'_>) -> usize
    ensures { result ≡ quoted_bytes (spelled token.now) }
{
    match token.kind {
        TokenKind::Text | TokenKind::Char(_) | TokenKind::Word(_) => token.bytes.len(),
        TokenKind::Bad(
            BadToken::Unclosed
            | BadToken::EmptyQuote
            | BadToken::UnknownEscape
            | BadToken::NoZscii
            | BadToken::BadCode
            | BadToken::TooLong,
        ) => token.bytes.len(),
        _ => 0,
    }
}

/// Returns `token` as it comes to a place of the reading: at the front of a piece a name may be that of a class.
fn token_at<'t, B: Bounds>(
    is_between: bool,
    token: &SourceToken<'t>,
    work: &Compilation<B>,
) -> SourceToken<'t>
    ensures { let t = spelled token.now in spelled result ≡ token_at is_between t.kind t.bytes t.place (work_of work.now) }
{
    let is_class = is_between && work.is_class(token.kind, token.bytes);
    SourceToken::new(token.kind, token.bytes, token.place, is_class)
}
