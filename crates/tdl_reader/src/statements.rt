//! Statements: one step for each token.

ghost use Rattle.std.specs.Prelude.{◌≡◌, [], ◌∷◌, ◌++◌, map, Some, None, Option, IfOk, IfErr, OnOk, true, string_bytes};
ghost use Rattle.std.specs.Option.{option_map};
ghost use Rattle.tdl_reader.specs.GroupScan.{read_group, read_letters};
ghost use Rattle.tdl_reader.specs.Machine.{PastTree, with_statement, with_letters, at_stage, stage_step, groups_step, body_step, is_empty, ends_body, is_whole, finish, with_body, may_end, depth, point_depth, lettered, letter, named, defined, affixed, end, want_dot};
ghost use Rattle.tdl_reader.specs.Reading.{opens};
ghost use Rattle.tdl_reader.specs.States.{tok_in, IsOfText, stack_of, point_of, IsStop};
ghost use Rattle.tdl_reader.specs.Stages.{head_of, stage_of, groups_in, past_of, IsStageStop, IsStageStep, IsGood, IsFaultAt};
ghost use Rattle.tdl_reader.specs.Views.{set_of, group_in, statement_of, body_in};

use crate::groups::{read_group, read_letters};
use crate::points::{go_on, point_step};
use crate::stages::{
    Head, Past, Stage, begin_word, body_begins, defined, end_word, first_word, include_name,
    instance_word, lettered, named, status_name,
};
use crate::terms::{Frame, Point, Seen, unexpected, whole};
use crate::{Affix, AffixGroup, Body, LetterSet, ReadFault, Statement};
use std::alloc::Global;
use std::mem;
use tdl_lexer::TokenKind;

/// Whether a token ends the body, and the statement with it.
fn ends_body(frames: &Vec<Frame>, point: &Point, seen: Seen<'_>) -> bool
    ensures { result ≡ ends_body (stack_of frames.now.items) (point_of point.now) seen.entry.token.kind }
{
    seen.token.kind == TokenKind::Dot && (has_none(frames) && is_whole(point))
}

/// Whether no bracket is open.
fn has_none(frames: &Vec<Frame>) -> bool
    ensures { result ≡ is_empty (stack_of frames.now.items) }
{
    frames.is_empty()
}

/// Whether a point stands after a whole body.
fn is_whole(point: &Point) -> bool
    ensures { result ≡ is_whole (point_of point.now) }
{
    matches!(point, Point::GotTerm { .. })
}

/// The statement of a head and its body.
fn with_body(head: Head, body: Body) -> Statement
    ensures { statement_of result ≡ with_body (head_of head) (body_in body) }
{
    match head {
        Head::Define { name, at, affix } => Statement::Define {
            name,
            at,
            affix,
            body,
        },
        Head::Add { name, at } => Statement::Adds { name, at, body },
    }
}

/// The statements and one more.
fn add_statement(done: &mut Past, statement: Statement) -> Result<(), ReadFault>
    ensures found { IfOk result (λ _. past_of done.new ≡ with_statement (past_of done.old) (statement_of statement)) }
    ensures fault { IfErr result (λ e. e ≡ ReadFault.NoMemory) }
{
    done.statements.push(statement)?;
    Ok(())
}

/// The dot after a body.
fn finish(done: &mut Past, head: Head, point: Point) -> Result<Stage, ReadFault>
    requires { is_whole (point_of point) ≡ true }
    ensures found { IfOk result (λ p. finish (past_of done.old) (head_of head) (point_of point) ≡ at_stage (past_of done.new) (stage_of p)) }
    ensures fault { IfErr result (λ e. e ≡ ReadFault.NoMemory) }
{
    if let Point::GotTerm { terms, last } = point {
        add_statement(done, with_body(head, whole(terms, last)?))?;
    }
    Ok(Stage::Between)
}

/// A token within a body, or its end.
fn body(
    alloc: Global,
    done: &mut Past,
    head: Head,
    mut frames: Vec<Frame>,
    point: Point,
    seen: Seen<'_>,
) -> Result<Stage, ReadFault>
    requires { IsOfText seen }
    ensures found { IfOk result (λ p. body_step (past_of done.old) (head_of head) (stack_of frames.items) (point_of point) seen.entry.token.kind (tok_in seen.entry) ≡ at_stage (past_of done.new) (stage_of p)) }
    ensures fault { IfErr result (λ e. IsStop (body_step (past_of done.old) (head_of head) (stack_of frames.items) (point_of point) seen.entry.token.kind (tok_in seen.entry)) seen.entry.token.from e) }
{
    if ends_body(&frames, &point, seen) {
        return finish(done, head, point);
    }
    let point = point_step(alloc, &mut frames, point, seen)?;
    Ok(Stage::InBody {
        head,
        frames,
        point,
    })
}

/// The dot of a statement.
fn dot(done: &mut Past, statement: Statement, seen: Seen<'_>) -> Result<Stage, ReadFault>
    ensures found { IfOk result (λ p. stage_step (past_of done.old) (want_dot (statement_of statement)) seen.entry.token.kind (tok_in seen.entry) ≡ at_stage (past_of done.new) (stage_of p)) }
    ensures fault { IfErr result (λ e. IsStop (stage_step (past_of done.old) (want_dot (statement_of statement)) seen.entry.token.kind (tok_in seen.entry)) seen.entry.token.from e) }
{
    if seen.token.kind != TokenKind::Dot {
        return Err(unexpected(seen));
    }
    add_statement(done, statement)?;
    Ok(Stage::Between)
}

/// The letter sets so far and one more, with its statement.
fn add_letters(alloc: Global, done: &mut Past, set: LetterSet, at: u32) -> Result<(), ReadFault>
    ensures found { IfOk result (λ _. past_of done.new ≡ with_letters (past_of done.old) (set_of set) at) }
    ensures fault { IfErr result (λ e. e ≡ ReadFault.NoMemory) }
{
    let members = set.members.as_slice().to_vec(alloc)?;
    let name = set.name;
    done.sets.push(LetterSet { name, members })?;
    done.statements.push(Statement::Letters { set, at })?;
    Ok(())
}

/// The group of a letter set.
fn letter(alloc: Global, done: &mut Past, at: u32, seen: Seen<'_>) -> Result<Stage, ReadFault>
    requires { IsOfText seen }
    ensures found { IfOk result (λ p. IsStageStep (past_of done.old) (letter at) seen.entry.token.kind (tok_in seen.entry) (past_of done.new) (stage_of p)) }
    ensures fault { IfErr result (λ e. IsStageStop (past_of done.old) (letter at) seen.entry.token.kind (tok_in seen.entry) e) }
{
    if seen.token.kind != TokenKind::Group {
        return Err(unexpected(seen));
    }
    let spelled = tdl_lexer::spelled(seen.text, &seen.token);
    match read_letters(alloc, spelled)? {
        Some(set) => {
            add_letters(alloc, done, set, at)?;
            Ok(Stage::Lettered)
        }
        None => Err(ReadFault::BadAffix {
            at: seen.token.from,
        }),
    }
}

/// The groups and one more.
fn with_group(
    alloc: Global,
    sets: &[LetterSet],
    mut groups: Vec<AffixGroup>,
    seen: Seen<'_>,
) -> Result<Option<Vec<AffixGroup>>, ReadFault>
    requires { IsOfText seen }
    ensures found { IfOk result (λ o. option_map groups_in o ≡ option_map (λ g. map group_in groups.items ++ g ∷ []) (read_group (map set_of sets.now) (tok_in seen.entry).spelled)) }
    ensures fault { IfErr result (λ e. e ≡ ReadFault.NoMemory) }
{
    let spelled = tdl_lexer::spelled(seen.text, &seen.token);
    match read_group(alloc, sets, spelled)? {
        Some(group) => {
            groups.push(group)?;
            Ok(Some(groups))
        }
        None => Ok(None),
    }
}

/// After `%suffix` or `%prefix` and groups: another group, or the body.
fn affixed(
    alloc: Global,
    done: &Past,
    name: String,
    at: u32,
    suffix: bool,
    groups: Vec<AffixGroup>,
    seen: Seen<'_>,
) -> Result<Stage, ReadFault>
    requires { IsOfText seen }
    ensures found { IfOk result (λ p. IsStageStep (past_of done.now) (affixed (string_bytes name) at suffix (map group_in groups.items)) seen.entry.token.kind (tok_in seen.entry) (past_of done.now) (stage_of p)) }
    ensures fault { IfErr result (λ e. IsStageStop (past_of done.now) (affixed (string_bytes name) at suffix (map group_in groups.items)) seen.entry.token.kind (tok_in seen.entry) e) }
{
    match seen.token.kind {
        TokenKind::Group => match with_group(alloc, &done.sets, groups, seen)? {
            Some(groups) => Ok(Stage::Affixed {
                name,
                at,
                suffix,
                groups,
            }),
            None => Err(ReadFault::BadAffix {
                at: seen.token.from,
            }),
        },
        _ => after_groups(alloc, name, at, suffix, groups, seen),
    }
}

/// The body after the groups of a spelling rule, of which there is one.
fn after_groups(
    alloc: Global,
    name: String,
    at: u32,
    suffix: bool,
    groups: Vec<AffixGroup>,
    seen: Seen<'_>,
) -> Result<Stage, ReadFault>
    requires { IsOfText seen }
    ensures found { IfOk result (λ p. (done : PastTree) → groups_step done (string_bytes name) at suffix (map group_in groups.items) seen.entry.token.kind (tok_in seen.entry) ≡ at_stage done (stage_of p)) }
    ensures fault { IfErr result (λ e. (done : PastTree) → IsStop (groups_step done (string_bytes name) at suffix (map group_in groups.items) seen.entry.token.kind (tok_in seen.entry)) seen.entry.token.from e) }
{
    if groups.is_empty() {
        return Err(unexpected(seen));
    }
    let affix = Some(Affix { suffix, groups });
    body_begins(alloc, Head::Define { name, at, affix }, seen)
}

/// A token at a stage, whatever the depth.
fn stage_step(
    alloc: Global,
    done: &mut Past,
    stage: Stage,
    seen: Seen<'_>,
) -> Result<Stage, ReadFault>
    requires { IsOfText seen }
    ensures found { IfOk result (λ p. IsStageStep (past_of done.old) (stage_of stage) seen.entry.token.kind (tok_in seen.entry) (past_of done.new) (stage_of p)) }
    ensures fault { IfErr result (λ e. IsStageStop (past_of done.old) (stage_of stage) seen.entry.token.kind (tok_in seen.entry) e) }
{
    match stage {
        Stage::Between => first_word(alloc, seen),
        Stage::Lettered => lettered(alloc, seen),
        Stage::Letter { at } => letter(alloc, done, at, seen),
        Stage::Named { name, at } => named(alloc, name, at, seen),
        Stage::Defined { name, at } => defined(alloc, name, at, seen),
        Stage::Affixed {
            name,
            at,
            suffix,
            groups,
        } => affixed(alloc, done, name, at, suffix, groups, seen),
        Stage::Begin { at } => begin_word(alloc, at, seen),
        Stage::BeginInstance { at } => instance_word(alloc, at, seen),
        Stage::BeginStatus { at } => status_name(alloc, at, seen),
        Stage::End { at } => end_word(alloc, at, seen),
        Stage::Include { at } => include_name(alloc, at, seen),
        Stage::WantDot { statement } => dot(done, statement, seen),
        Stage::InBody {
            head,
            frames,
            point,
        } => body(alloc, done, head, frames, point, seen),
    }
}

/// A token at a stage, whatever the depth, and the stage after it. What goes on within a body stays in its place, since a stage is
/// large and most tokens stand within bodies.
fn stage_goes_on(
    alloc: Global,
    done: &mut Past,
    stage: &mut Stage,
    seen: Seen<'_>,
) -> Result<(), ReadFault>
    requires { IsOfText seen }
    ensures found { OnOk result (IsStageStep (past_of done.old) (stage_of stage.old) seen.entry.token.kind (tok_in seen.entry) (past_of done.new) (stage_of stage.new)) }
    ensures fault { IfErr result (λ e. IsStageStop (past_of done.old) (stage_of stage.old) seen.entry.token.kind (tok_in seen.entry) e) }
{
    if let Stage::InBody { frames, point, .. } = stage {
        if !ends_body(frames, point, seen) {
            return go_on(alloc, frames, point, seen);
        }
    }
    let here = mem::replace(stage, Stage::Between);
    *stage = stage_step(alloc, done, here, seen)?;
    Ok(())
}

/// The brackets that a point has open besides those on the stack.
fn point_depth(point: &Point) -> usize
    ensures { result ≡ point_depth (point_of point.now) }
{
    match point {
        Point::WantTerm { .. } | Point::GotTerm { .. } => 0,
        _ => 1,
    }
}

/// How many brackets are open.
fn depth(stage: &Stage) -> usize
    ensures { result ≡ depth (stage_of stage.now) }
{
    match stage {
        Stage::InBody { frames, point, .. } => frames.len() + point_depth(point),
        _ => 0,
    }
}

/// Whether a token opens a bracket.
fn opens(kind: TokenKind) -> bool
    ensures { result ≡ opens kind }
{
    matches!(
        kind,
        TokenKind::AvmOpens | TokenKind::ListOpens | TokenKind::DiffOpens
    )
}

/// Whether the tokens may end here.
pub(crate) fn may_end(stage: &Stage) -> bool
    ensures { result ≡ may_end (stage_of stage.now) }
{
    matches!(stage, Stage::Between | Stage::Lettered)
}

/// A token at a stage, and the stage after it.
pub(crate) fn step(
    alloc: Global,
    done: &mut Past,
    stage: &mut Stage,
    seen: Seen<'_>,
) -> Result<(), ReadFault>
    requires { IsOfText seen }
    ensures found { OnOk result (IsGood (record { done = past_of done.old; stage = stage_of stage.old }) (tok_in seen.entry) (record { done = past_of done.new; stage = stage_of stage.new })) }
    ensures fault { IfErr result (λ e. IsFaultAt (record { done = past_of done.old; stage = stage_of stage.old }) (tok_in seen.entry) e) }
{
    let deep = opens(seen.token.kind) && depth(stage) == 200;
    stage_goes_on(alloc, done, stage, seen)?;
    if deep {
        return Err(ReadFault::TooDeep {
            at: seen.token.from,
        });
    }
    Ok(())
}
