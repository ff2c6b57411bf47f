//! What is written of the nodes of a chain.
ghost use Rattle.std.specs.Prelude.{◌≡◌, ◌≤◌, ◌++◌, ℕ, length, map, IfOk, OnOk};
ghost use Rattle.std.specs.List.{AllByRecursion, flat_map};
ghost use Rattle.ldm_model.specs.State.{State, queued};
ghost use Rattle.ldm_book.specs.Stands.{StandsFor};
ghost use Rattle.ldm_chain.specs.CommandQueues.{node_line, node_text, nodes_text, product_line};
ghost use Rattle.ldm_chain.specs.CommandNodes.{AreSole, HasLegal, IsSole, queue_of};

use crate::node::ChainNode;
use ldm_answers::{Answer, Text, put, put_number, write_answer};
use ldm_book::Book;
use ldm_shared::{calls_made, one_pass};
use ldm_types::{Actor, OutOfMemory};
use std::alloc::Global;

/// The text of nodes, one behind the other. The first of them has number 1.
pub fn text_of(alloc: Global, mut nodes: Vec<ChainNode>) -> Result<Vec<u8>, OutOfMemory>
    requires sole { (arena slots : ℕ) × AreSole arena slots nodes.items }
    requires few { length nodes.items ≤ 7 }
    ensures text { IfOk result (λ text. text.items ≡ nodes_text 1 (map queue_of nodes.items)) }
    ensures legal { OnOk result (AllByRecursion HasLegal nodes.items) }
{
    let mut text = Vec::new(alloc);
    let mut i = 1;
    while !nodes.is_empty() {
        let node = nodes.remove(0);
        add_node(alloc, &mut text, i, node)?;
        i += 1;
    }
    Ok(text)
}

// Adds the text of the node of that number.
fn add_node(alloc: Global, text: &mut Vec<u8>, i: u8, node: ChainNode) -> Result<(), OutOfMemory>
    requires { (arena slots : ℕ) × IsSole arena slots node }
    ensures text { OnOk result (text.new.items ≡ text.old.items ++ node_text i (queue_of node)) }
    ensures legal { OnOk result (HasLegal node) }
{
    let mut book = book_of(alloc, node)?;
    add_book(text, i, &mut book)
}

// The book of a node's queue.
fn book_of(alloc: Global, node: ChainNode) -> Result<Book, OutOfMemory>
    requires { (arena slots : ℕ) × IsSole arena slots node }
    ensures stands { IfOk result (λ book. StandsFor book (queue_of node)) }
    ensures legal { OnOk result (HasLegal node) }
{
    let ChainNode { shared, pass, .. } = node;
    let mut passes = Vec::with_capacity(alloc, 1)?;
    passes.push_reserved(pass);
    calls_made();
    one_pass();
    let (book, _last) = shared.finish(passes);
    Ok(book)
}

// Adds the line that names a node, a line for each queued product, and how full the queue is.
fn add_book(text: &mut Vec<u8>, i: u8, book: &mut Book) -> Result<(), OutOfMemory>
    ensures { OnOk result
        ((s : State) → StandsFor book.old s → text.new.items ≡ text.old.items ++ node_text i s) }
{
    let Some(actor) = Actor::new(0) else {
        unreachable!()
    };
    let stat = book.stat(actor);
    let mut line = Text::new();
    write_node(i, &mut line);
    text.extend_from_slice(line.as_slice())?;
    add_products(text, book)?;
    write_answer(&Answer::from(stat), &mut line);
    text.extend_from_slice(line.as_slice())?;
    Ok(())
}

// Writes the line that names a node, over what the buffer had.
fn write_node(i: u8, line: &mut Text)
    ensures { line.new.items ≡ node_line i }
{
    line.clear();
    put(line, b"node ");
    put_number(line, u64::from(i));
    put(line, b"\n");
}

// Adds a line for each queued product.
fn add_products(text: &mut Vec<u8>, book: &Book) -> Result<(), OutOfMemory>
    ensures { OnOk result
        ((s : State) → StandsFor book.now s
        → text.new.items ≡ text.old.items ++ flat_map product_line (queued s)) }
{
    let mut line = Text::new();
    for i in 0..book.slots() {
        let Some(product) = book.product_at(i) else {
            return Ok(());
        };
        write_answer(
            &Answer::Product {
                n: product.note.n,
                time: product.note.time,
                info: product.info,
            },
            &mut line,
        );
        text.extend_from_slice(line.as_slice())?;
    }
    Ok(())
}
