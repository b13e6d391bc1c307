//! The attributes of parentheses, before those of what these held.

ghost use Rattle.std.specs.Prelude.{◌≡◌, ◌++◌, ◌∷◌, [], map, IfOk};
ghost use Rattle.syn_expr_flatten.specs.Flat.{before, place};
ghost use Rattle.syn_expr_ast.specs.Attrs.{attrs_of, inner_of, outer_of};
ghost use Rattle.syn_expr_spec.specs.Tree.{inners, outers};
ghost use Rattle.syn_lower_leaves.specs.View.{attribute_of};

use std::alloc::AllocError;
use std::mem::replace;
use syn_expr_ast::attrs::{all_outer, from_inner, is_inner, joined};
use syn_lower::attr::Attribute;

/// What is answered inside. That memory ran out is all that flattening is refused for; nothing is said then of what was given.
pub type Flattened<T> = Result<T, AllocError>;

/// The attributes of parentheses that were round an expression; None where there were none.
pub type Before = Option<Vec<Attribute>>;

/// Puts these before the attributes that an expression has of its own. Refused where memory runs out.
pub fn put_before(attrs: Before, own: &mut Vec<Attribute>) -> Flattened<()>
    ensures { IfOk result (λ _. attrs_of own.new ≡ before attrs ++ attrs_of own.old) }
{
    if let Some(attrs) = attrs {
        let alloc = *own.allocator();
        *own = joined(attrs, replace(own, Vec::new(alloc)))?;
    }
    Ok(())
}

/// Where one belongs among those of a node with braces: an outer one before all, an inner one before the inner ones.
fn place(attr: &Attribute, own: &Vec<Attribute>) -> usize
    ensures { result ≡ place (attribute_of attr.now) (map attribute_of own.now.items) }
{
    if is_inner(attr) {
        own.len() - from_inner(own).len()
    } else {
        0
    }
}

/// Puts one in its place among those of a node with braces.
fn put_one(attr: Attribute, own: &mut Vec<Attribute>) -> Flattened<()>
    ensures outer { IfOk result (λ _. outer_of own.new ≡ outers (attribute_of attr ∷ []) ++ outer_of own.old) }
    ensures inner { IfOk result (λ _. inner_of own.new ≡ inners (attribute_of attr ∷ []) ++ inner_of own.old) }
{
    let at = place(&attr, own);
    own.insert(at, attr)?;
    Ok(())
}

/// Puts each before those of a node with braces, the last first.
fn put_each(mut attrs: Vec<Attribute>, own: &mut Vec<Attribute>) -> Flattened<()>
    ensures outer { IfOk result (λ _. outer_of own.new ≡ outer_of attrs ++ outer_of own.old) }
    ensures inner { IfOk result (λ _. inner_of own.new ≡ inners (attrs_of attrs) ++ inner_of own.old) }
{
    'attrs: while let Some(attr) = attrs.pop() {
        put_one(attr, own)?;
    }
    Ok(())
}

/// Puts these before the attributes that a node with braces has of its own: the outer ones before all, the inner ones before
/// the inner ones. Refused where memory runs out.
pub fn put_around(attrs: Before, own: &mut Vec<Attribute>) -> Flattened<()>
    ensures outer { IfOk result (λ _. outer_of own.new ≡ outers (before attrs) ++ outer_of own.old) }
    ensures inner { IfOk result (λ _. inner_of own.new ≡ inners (before attrs) ++ inner_of own.old) }
{
    if let Some(attrs) = attrs {
        if !all_outer(&attrs) {
            return put_each(attrs, own);
        }
        let alloc = *own.allocator();
        *own = joined(attrs, replace(own, Vec::new(alloc)))?;
    }
    Ok(())
}
