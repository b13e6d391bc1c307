//! Copies of paths, and of the calls of macros.

ghost use Rattle.std.specs.Prelude.{◌≡◌, IfOk, IfErr};
ghost use Rattle.syn_lower_copy.specs.Copying.{Copies, Takes, RunsOut};
ghost use Rattle.syn_lower_copy.specs.Within.{InPath, InQSelf, InSegment};
ghost use Rattle.syn_lower_types.specs.View.{macro_of, path_of, qself_or, segment_of};

use crate::argument::copy_arguments;
use crate::list::{copy_boxed, copy_punctuated};
use crate::seen::{BySegment, ByTree};
use std::alloc::Global;
use syn_lower_types::mac::MacroOf;
use syn_lower_types::path::{PathOf, PathSegmentOf, QSelfOf};
use syn_lower_types::types::HasTree;
use syn_tokens::error::{ErrorKind, Result};
use syn_tokens::tree::{copy_ident, copy_trees};

/// A copy of a segment of a path.
fn copy_segment<T: HasTree + Drop, F: Fn(&T, Global) -> Result<T>>(
    alloc: Global,
    x: &PathSegmentOf<T>,
    call: &F,
) -> Result<PathSegmentOf<T>>
    requires takes { InSegment (Takes (F.pre call.now) alloc) x.now }
    requires copies { Copies T.tree (F.post call.now) alloc }
    requires runs_out { RunsOut (F.post call.now) alloc }
    ensures copied { IfOk result (λ y. segment_of T.tree y ≡ segment_of T.tree x.now) }
    ensures memory { IfErr result (λ e. e.kind ≡ ErrorKind.OutOfMemory) }
{
    let ident = copy_ident(alloc, &x.ident)?;
    let arguments = copy_arguments(alloc, &x.arguments, call)?;
    Ok(PathSegmentOf { ident, arguments })
}

/// A copy of a path.
pub fn copy_path<T: HasTree + Drop, F: Fn(&T, Global) -> Result<T>>(
    alloc: Global,
    x: &PathOf<T>,
    call: &F,
) -> Result<PathOf<T>>
    requires takes { InPath (Takes (F.pre call.now) alloc) x.now }
    requires copies { Copies T.tree (F.post call.now) alloc }
    requires runs_out { RunsOut (F.post call.now) alloc }
    ensures copied { IfOk result (λ y. path_of T.tree y ≡ path_of T.tree x.now) }
    ensures memory { IfErr result (λ e. e.kind ≡ ErrorKind.OutOfMemory) }
{
    let copy = |x: &PathSegmentOf<T>, alloc: Global| copy_segment(alloc, x, call);
    let segments = copy_punctuated(alloc, BySegment {}, &x.segments, &copy)?;
    Ok(PathOf {
        leading_colon: x.leading_colon,
        segments,
    })
}

/// A copy of the type in front of a path, if there is one.
pub fn copy_qself<T: HasTree + Drop, F: Fn(&T, Global) -> Result<T>>(
    alloc: Global,
    x: &Option<QSelfOf<T>>,
    call: &F,
) -> Result<Option<QSelfOf<T>>>
    requires takes { InQSelf (Takes (F.pre call.now) alloc) x.now }
    requires copies { Copies T.tree (F.post call.now) alloc }
    requires runs_out { RunsOut (F.post call.now) alloc }
    ensures copied { IfOk result (λ y. qself_or T.tree y ≡ qself_or T.tree x.now) }
    ensures memory { IfErr result (λ e. e.kind ≡ ErrorKind.OutOfMemory) }
{
    match x {
        Some(x) => {
            let ty = copy_boxed(alloc, ByTree {}, &x.ty, call)?;
            Ok(Some(QSelfOf {
                lt_token: x.lt_token,
                ty,
                position: x.position,
                as_token: x.as_token,
                gt_token: x.gt_token,
            }))
        }
        None => Ok(None),
    }
}

/// A copy of the call of a macro.
pub fn copy_macro<T: HasTree + Drop, F: Fn(&T, Global) -> Result<T>>(
    alloc: Global,
    x: &MacroOf<T>,
    call: &F,
) -> Result<MacroOf<T>>
    requires takes { InPath (Takes (F.pre call.now) alloc) x.now.path }
    requires copies { Copies T.tree (F.post call.now) alloc }
    requires runs_out { RunsOut (F.post call.now) alloc }
    ensures copied { IfOk result (λ y. macro_of T.tree y ≡ macro_of T.tree x.now) }
    ensures memory { IfErr result (λ e. e.kind ≡ ErrorKind.OutOfMemory) }
{
    let path = copy_path(alloc, &x.path, call)?;
    let tokens = copy_trees(alloc, x.tokens.trees())?;
    Ok(MacroOf {
        path,
        bang_token: x.bang_token,
        delimiter: x.delimiter,
        tokens,
    })
}
