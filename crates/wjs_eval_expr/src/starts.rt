//! What an expression begins with (ECMA-262, 3rd edition, section 11).
ghost use Rattle.wjs_frames.specs.Handling.{Runs, Begins};

use wjs_assigns::{assign_start, comma_start, cond_start, prefix_start, update_start};
use wjs_base::{OutOfMemory, Value};
use wjs_frames::{Part, enter_last, finish, node_of};
use wjs_literals::{
    array_start, call_start, function_start, new_start, object_start, text, this, this_world,
};
use wjs_members::{at_start, dot_start, name_value};
use wjs_model::{Completion, Config, Fix, Frame, Purpose, Start};
use wjs_operators::binary_start;
use wjs_store::WorldStore;
use wjs_tree::Node;

/// An expression at its entry, by its form. What is none ends with no value.
pub fn expr<S: WorldStore>(config: &mut Config<S>, frame: Frame) -> Result<(), OutOfMemory>
    requires runs { Runs S.meaning config.old frame }
    ensures { Begins S.meaning frame Start.Expr config.old config.new result }
{
    let Some(node) = node_of(config, &frame) else {
        return finish(config, frame, Completion::Normal);
    };
    match node {
        Node::Name(id) => {
            let id = *id;
            name_value(config, frame, id)
        }
        Node::Number(number) => {
            let value = Value::Number(*number);
            finish(config, frame, Completion::Gives(value))
        }
        Node::Text(id) => {
            let id = *id;
            text(config, frame, id)
        }
        Node::This => this(config, frame),
        Node::ThisWorld => this_world(config, frame),
        Node::Null => finish(config, frame, Completion::Gives(Value::Null)),
        Node::Bool(truth) => {
            let value = Value::Bool(*truth);
            finish(config, frame, Completion::Gives(value))
        }
        Node::Paren(part) => {
            let part = *part;
            enter_last(config, frame, Part::Expr(part))
        }
        Node::ArrayLit(_, _) => array_start(config, frame),
        Node::ObjectLit(_, _) => object_start(config, frame),
        Node::Function(name, _, _) => {
            let name = *name;
            function_start(config, frame, name)
        }
        Node::Dot(base, name) => {
            let (base, name) = (*base, *name);
            dot_start(config, frame, base, name, Purpose::Value)
        }
        Node::At(base, index) => {
            let (base, index) = (*base, *index);
            at_start(config, frame, base, index, Purpose::Value)
        }
        Node::Call(callee, _) => {
            let callee = *callee;
            call_start(config, frame, callee)
        }
        Node::NewWith(callee, _) => {
            let callee = *callee;
            new_start(config, frame, callee)
        }
        Node::NewBare(callee) => {
            let callee = *callee;
            new_start(config, frame, callee)
        }
        Node::Postfix(part, operator) => {
            let (part, operator) = (*part, *operator);
            update_start(config, frame, Fix::Post, operator, part)
        }
        Node::Prefix(operator, operand) => {
            let (operator, operand) = (*operator, *operand);
            prefix_start(config, frame, operator, operand)
        }
        Node::Binary(left, operator, right) => {
            let (left, operator, right) = (*left, *operator, *right);
            binary_start(config, frame, left, operator, right)
        }
        Node::Cond(test, yes, no) => {
            let (test, yes, no) = (*test, *yes, *no);
            cond_start(config, frame, test, yes, no)
        }
        Node::Assign(part, sign, right) => {
            let (part, sign, right) = (*part, *sign, *right);
            assign_start(config, frame, part, sign, right)
        }
        Node::Comma(left, right) => {
            let (left, right) = (*left, *right);
            comma_start(config, frame, left, right)
        }
        _ => finish(config, frame, Completion::Normal),
    }
}
