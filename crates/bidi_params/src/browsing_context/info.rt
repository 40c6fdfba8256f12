//! What is told of a browsing context and of those below it.
ghost use Rattle.std.specs.Prelude.{◌≡◌, IfOk, Some, codes, map, option_map, ◌≤◌, ◌⊎◌, ◌∷◌, IfSome, true};
ghost use Rattle.std.specs.List.{AllByRecursion};
ghost use Rattle.bidi_tree.specs.Node.{get_member, MembersAreWhole, levels};
ghost use Rattle.bidi_tree.specs.Kind.{members_in};
ghost use Rattle.bidi_tree.specs.Outline.{outline_node, outline_items};
ghost use Rattle.bidi_tree.specs.View.{items_of, members_node};
ghost use Rattle.bidi_shape.specs.Name.{info};
ghost use Rattle.bidi_shape.specs.Term.{Term, required, either, list_of, map_of, null, rule as named};
ghost use Rattle.bidi_shape.specs.Fits.{Fits, AllFit};
ghost use Rattle.bidi_shape.specs.Parts.{PartFits, has_named};
ghost use Rattle.bidi_shape.specs.Outcome.{IfNoFit};
ghost use Rattle.bidi_params.specs.InfoContent.{told};
ghost use Rattle.bidi_params.specs.InfoParts.{info_parts, map_of_parts};
ghost use Rattle.bidi_params.specs.InfoLaws.{info_map, rows_with, children_node, OwnMembersAreWell, info_shape, names};
ghost use Rattle.bidi_params.specs.declared.browsing_context.info.Info.{out-Info};
ghost use Rattle.bidi_params.specs.InfoView.{beside_of, content, children_content, tree_of_info, InfoIsWell};

use bidi_shape::{
    Ext, Fields, MAX_LEVELS, MakeFault, Optional, Parsed, Required, Shape, ShapeFault, add_member,
    add_optional,
};
use bidi_tree::{Members, Outline, outline_members_of, put_outline};
use std::alloc::{AllocError, Global};

/// A browsing context, and those below it, of at most 60 levels.
///
/// `{ children: [*Info] / null, clientWindow: text, context: text, originalOpener: text / null, url: text,
/// userContext: text, ? parent: text / null, Extensible }`
///
/// `clientWindow` is the window that shows it, and `originalOpener` the context that opened it. The remote end of this
/// project tells no opener, and `default` as the user context.
///
/// After WebDriver BiDi, "The browsingContext.Info Type".
#[derive(Drop)]
pub struct Info {
    /// The contexts directly below; none where they were not asked for.
    pub children: Option<Vec<Info>>,
    pub client_window: String,
    pub context: String,
    pub original_opener: Option<String>,
    pub url: String,
    pub user_context: String,
    /// The context directly above, or null at the top; absent where it stands in the tree.
    pub parent: Option<Option<String>>,
    pub ext: Ext,
}

impl Info {
    ghost use Rattle.bidi_shape.specs.Made.{Makes, others_of};

    /// The Info of these parts, with further members. Costs the making of its outline.
    ///
    /// # Errors
    /// - `Clash`: a further member is called `children`, `clientWindow`, `context`, `originalOpener`, `url`,
    ///   `userContext` or `parent`.
    /// - `TooDeep`: a further member has an `Odd` in it, or more than 60 levels; or the Info has more than 60.
    /// - `NoMemory`: an allocation failed.
    pub fn new(
        alloc: Global,
        children: Option<Vec<Info>>,
        client_window: String,
        context: String,
        original_opener: Option<String>,
        url: String,
        user_context: String,
        parent: Option<Option<String>>,
        ext: Members,
    ) -> Result<Info, MakeFault>
        // Each child is well-formed, if children are given.
        requires children { IfSome children ⟦<Vec<Info> as Shape>⟧.shape.well }
        // Memory aside, the first cause that holds is the fault; with none, the value has these parts.
        ensures made { Makes result
            (has_named (codes "children" ∷ names) (members_node ext.entries) ≡ true)
            ⊥
            (¬ MembersAreWhole (members_node ext.entries) 60
            ⊎ ¬ (levels (map_of_parts children client_window context original_opener url user_context parent (members_node ext.entries)) ≤ 60))
            (λ v. ((out-Info v).children ≡ children) × ((out-Info v).client_window ≡ client_window) × ((out-Info v).context ≡ context)
            × ((out-Info v).original_opener ≡ original_opener) × ((out-Info v).url ≡ url) × ((out-Info v).user_context ≡ user_context)
            × ((out-Info v).parent ≡ parent) × (others_of (out-Info v).ext ≡ members_node ext.entries)) }
        // The value is well-formed, so its tree fits the type's rule.
        ensures well { IfOk result (λ v. ⟦<Info as Shape>⟧.shape.well v) }
    {
        let ext = Ext::new(ext, NAMES)?;
        if !ext.is_whole() {
            return Err(MakeFault::TooDeep);
        }
        let made = Info {
            children,
            client_window,
            context,
            original_opener,
            url,
            user_context,
            parent,
            ext,
        };
        let is_within = made.outline(alloc)?.is_within(MAX_LEVELS);
        if is_within {
            Ok(made)
        } else {
            Err(MakeFault::TooDeep)
        }
    }
}

/// In the order of the rule.
const NAMES: &[&str] = &[
    "children",
    "clientWindow",
    "context",
    "originalOpener",
    "url",
    "userContext",
    "parent",
];

/// The same without `children`.
const OWN_NAMES: &[&str] = &[
    "clientWindow",
    "context",
    "originalOpener",
    "url",
    "userContext",
    "parent",
];

/// The members beside `children`.
type OwnMembers = Required<
    String,
    Required<
        String,
        Required<Option<String>, Required<String, Required<String, Optional<Option<String>, Ext>>>>,
    >,
>;

impl Shape for Info {
    ghost shape = { info_shape info_parts content };

    fn from_tree<S: Parsed>(alloc: Global, tree: &S) -> Result<Info, ShapeFault> {
        if tree.is_within(alloc, MAX_LEVELS)? {
            read_info(alloc, tree)
        } else {
            Err(ShapeFault::NoFit)
        }
    }

    fn outline<'a>(&'a self, alloc: Global) -> Result<Outline<'a>, AllocError> {
        outline_info(alloc, self)
    }
}

// ---- reading

#[cycle(read)]
fn read_info<S: Parsed>(alloc: Global, tree: &S) -> Result<Info, ShapeFault>
    ensures ok { IfOk result (λ i. (tree_of_info info_parts i ≡ S.tree tree.now) × InfoIsWell info_parts i) }
    ensures no_fit { IfNoFit result (Fits (S.tree tree.now) (named info) → ⊥) }
{
    let (beside, children) = read_beside(alloc, tree)?;
    match children {
        Some(items) => {
            let children = read_infos(alloc, items)?;
            Ok(with_children(beside, Some(children)))
        }
        None => Ok(with_children(beside, None)),
    }
}

#[cycle(read)]
fn read_infos<S: Parsed>(alloc: Global, items: &[S]) -> Result<Vec<Info>, ShapeFault>
    ensures ok { IfOk result (λ v. (map (tree_of_info info_parts) v.items ≡ map S.tree items.now) × AllByRecursion (InfoIsWell info_parts) v.items) }
    ensures no_fit { IfNoFit result (AllFit (items_of (map S.tree items.now)) (named info) → ⊥) }
{
    let mut infos = Vec::with_capacity(alloc, items.len())?;
    for item in items {
        infos.push(read_info(alloc, item)?)?;
    }
    Ok(infos)
}

/// What stands beside the children, and the items of these where they are told.
fn read_beside<'a, S: Parsed>(
    alloc: Global,
    tree: &'a S,
) -> Result<(OwnMembers, Option<&'a [S]>), ShapeFault>
    ensures ok { IfOk result (λ p. (info_map info_parts.table p.0 (children_node (option_map (λ x. items_of (map S.tree x.now)) p.1)) ≡ S.tree tree.now)
        × OwnMembersAreWell info_parts p.0) }
    ensures no_fit { IfNoFit result ((τ : Term) → Fits (S.tree tree.now) (map_of (rows_with info_parts.table τ) info_parts.table.openness) → ⊥) }
{
    tree.check_map()?;
    let beside = OwnMembers::read(alloc, tree, OWN_NAMES, &[], NAMES)?;
    let children = children_in(tree)?;
    Ok((beside, children))
}

/// The items of the children, or none where null stands in their place.
fn children_in<S: Parsed>(tree: &S) -> Result<Option<&[S]>, ShapeFault>
    ensures ok { IfOk result (λ c. get_member (codes "children") (members_in (S.tree tree.now))
        ≡ Some (children_node (option_map (λ x. items_of (map S.tree x.now)) c))) }
    ensures no_fit { IfNoFit result
        ((τ : Term) → PartFits required (either (list_of 0 τ) null) (get_member (codes "children") (members_in (S.tree tree.now))) → ⊥) }
{
    match tree.member("children") {
        Some(children) => items_or_null(children),
        None => Err(ShapeFault::NoFit),
    }
}

/// The items of a list, or none of null.
fn items_or_null<S: Parsed>(children: &S) -> Result<Option<&[S]>, ShapeFault>
    ensures ok { IfOk result (λ c. S.tree children.now ≡ children_node (option_map (λ x. items_of (map S.tree x.now)) c)) }
    ensures no_fit { IfNoFit result ((τ : Term) → Fits (S.tree children.now) (either (list_of 0 τ) null) → ⊥) }
{
    match children.as_items() {
        Some(items) => Ok(Some(items)),
        None => {
            if children.is_null() {
                Ok(None)
            } else {
                Err(ShapeFault::NoFit)
            }
        }
    }
}

fn with_children(beside: OwnMembers, children: Option<Vec<Info>>) -> Info
    ensures { content result ≡ told beside (children_content children) }
{
    let Required(
        client_window,
        Required(
            context,
            Required(original_opener, Required(url, Required(user_context, Optional(parent, ext)))),
        ),
    ) = beside;
    Info {
        children,
        client_window,
        context,
        original_opener,
        url,
        user_context,
        parent,
        ext,
    }
}

// ---- writing

#[cycle(write)]
fn outline_info<'a>(alloc: Global, info: &'a Info) -> Result<Outline<'a>, AllocError>
    ensures { IfOk result (λ d. outline_node d ≡ tree_of_info info_parts info.now) }
{
    match &info.children {
        Some(infos) => {
            let outlines = outline_infos(alloc, infos)?;
            outline_beside(alloc, info, Outline::List(outlines))
        }
        None => outline_beside(alloc, info, Outline::Null),
    }
}

#[cycle(write)]
fn outline_infos<'a>(alloc: Global, infos: &'a Vec<Info>) -> Result<Vec<Outline<'a>>, AllocError>
    ensures { IfOk result (λ v. map outline_node v.items ≡ map (tree_of_info info_parts) infos.now.items) }
{
    let mut outlines = Vec::with_capacity(alloc, infos.len())?;
    for info in infos {
        outlines.push(outline_info(alloc, info)?)?;
    }
    Ok(outlines)
}

/// The map of the children's outline and the members beside it.
fn outline_beside<'a>(
    alloc: Global,
    info: &'a Info,
    children: Outline<'a>,
) -> Result<Outline<'a>, AllocError>
    ensures { IfOk result (λ d. outline_node d ≡ info_map info_parts.table (beside_of (out-Info info.now)) (outline_node children.entry)) }
{
    let mut members = outline_members_of(alloc, &info.ext.members, NAMES.len())?;
    add_optional(alloc, &mut members, "parent", &info.parent)?;
    add_member(alloc, &mut members, "userContext", &info.user_context)?;
    add_member(alloc, &mut members, "url", &info.url)?;
    add_member(alloc, &mut members, "originalOpener", &info.original_opener)?;
    add_member(alloc, &mut members, "context", &info.context)?;
    add_member(alloc, &mut members, "clientWindow", &info.client_window)?;
    put_outline(&mut members, "children", children)?;
    Ok(Outline::Map(members))
}
