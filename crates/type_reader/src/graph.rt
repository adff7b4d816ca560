use crate::declarations::{Declaration, Form};
use crate::own_names::OwnNames;
use crate::uses::Uses;
use std::alloc::Global;
use tl_base::NoMemory;

/// A declaration that is being looked at, and the next of its uses.
#[derive(Clone, Copy)]
struct Frame {
    at: usize,
    next: usize,
}

/// The declarations that each alias uses, by their numbers.
fn edges<'a>(alloc: Global, own: &OwnNames<'a>, form: Form<'a>) -> Result<Vec<usize>, NoMemory> {
    let mut found = Vec::new(alloc);
    if let Form::Alias(e) = form {
        let mut uses = Uses::new(alloc);
        uses.ty(e)?;
        for used in uses.as_slice() {
            if used.parts.is_empty() {
                if let Some(at) = own.find(used.name) {
                    found.push(at)?;
                }
            }
        }
    }
    Ok(found)
}

/// The uses of all declarations, and how many there are.
fn all_edges<'a>(
    alloc: Global,
    own: &OwnNames<'a>,
    declared: &[Declaration<'a>],
) -> Result<Vec<Vec<usize>>, NoMemory> {
    let mut all = Vec::new(alloc);
    for declaration in declared {
        all.push(edges(alloc, own, declaration.form)?)?;
    }
    Ok(all)
}

/// How many steps a walk over all declarations and their uses takes.
fn steps(edges: &[Vec<usize>]) -> u64 {
    let mut count: u64 = 1;
    for uses in edges {
        count = count.saturating_add(uses.len() as u64).saturating_add(3);
    }
    count
}

/// What a walk over the declarations has seen, and the order in which it leaves them.
#[derive(Drop)]
struct Walk {
    stack: Vec<Frame>,
    seen: Vec<bool>,
    left: Vec<usize>,
}

impl Walk {
    /// Begins with a declaration, if it wasn't seen before.
    fn enter(&mut self, at: usize) -> Result<(), NoMemory> {
        if at < self.seen.len() && !self.seen[at] {
            self.seen[at] = true;
            self.stack.push(Frame { at, next: 0 })?;
        }
        Ok(())
    }

    /// Goes on with the next use of the declaration on top, or leaves it.
    fn go_on(&mut self, frame: Frame, edges: &[Vec<usize>]) -> Result<(), NoMemory> {
        let Some(uses) = edges.get(frame.at) else {
            return Ok(());
        };
        match uses.get(frame.next) {
            Some(used) => {
                let used = *used;
                self.stack.push(Frame {
                    at: frame.at,
                    next: frame.next.saturating_add(1),
                })?;
                self.enter(used)
            }
            None => {
                self.left.push(frame.at)?;
                Ok(())
            }
        }
    }
}

/// How the aliases of a module use one another, by the numbers of their declarations. It only saves time: what is read rests on nothing of it but what is
/// looked at again.
#[derive(Drop)]
pub struct Graph {
    /// the declarations that use each one
    users: Vec<Vec<usize>>,
    /// an order in which each declaration stands behind those that it uses, as far as none leads to itself
    pub order: Vec<usize>,
    /// a rank of each declaration: what it uses has no higher one, and the same one where the two lead to each other
    pub ranks: Vec<usize>,
}

impl Graph {
    /// The declarations that lead to this one, each behind one that it uses.
    pub fn leading(&self, alloc: Global, to: usize) -> Result<Vec<usize>, NoMemory> {
        let mut flood = Flood::new(alloc, self.users.len())?;
        flood.fill(to, &self.users)?;
        Ok(flood.found)
    }
}

/// The graph of these declarations. No call nests, however long a chain of aliases is.
pub fn graph_of<'a>(
    alloc: Global,
    own: &OwnNames<'a>,
    declared: &[Declaration<'a>],
) -> Result<Graph, NoMemory> {
    let edges = all_edges(alloc, own, declared)?;
    let mut walk = Walk {
        stack: Vec::new(alloc),
        seen: Vec::new(alloc),
        left: Vec::new(alloc),
    };
    for _ in declared {
        walk.seen.push(false)?;
    }
    walk_all(&mut walk, &edges)?;
    let users = all_users(alloc, &edges)?;
    let ranks = ranks_of(alloc, &walk.left, &users)?;
    Ok(Graph {
        users,
        order: walk.left,
        ranks,
    })
}

/// The edges the other way round.
fn all_users(alloc: Global, edges: &[Vec<usize>]) -> Result<Vec<Vec<usize>>, NoMemory> {
    let mut users = Vec::new(alloc);
    for _ in edges {
        users.push(Vec::new(alloc))?;
    }
    for at in 0..edges.len() {
        for used in edges[at].as_slice() {
            if let Some(known) = users.get_mut(*used) {
                known.push(at)?;
            }
        }
    }
    Ok(users)
}

/// What was reached, and what of it waits to be left.
#[derive(Drop)]
struct Flood {
    waiting: Vec<usize>,
    seen: Vec<bool>,
    found: Vec<usize>,
}

impl Flood {
    fn new(alloc: Global, count: usize) -> Result<Flood, NoMemory> {
        let mut seen = Vec::new(alloc);
        for _ in 0..count {
            seen.push(false)?;
        }
        Ok(Flood {
            waiting: Vec::new(alloc),
            seen,
            found: Vec::new(alloc),
        })
    }

    fn reach(&mut self, at: usize) -> Result<(), NoMemory> {
        if at < self.seen.len() && !self.seen[at] {
            self.seen[at] = true;
            self.waiting.push(at)?;
        }
        Ok(())
    }

    /// Finds what can be reached from here and wasn't found before.
    fn fill(&mut self, root: usize, users: &[Vec<usize>]) -> Result<(), NoMemory> {
        self.reach(root)?;
        for _ in users {
            let Some(at) = self.waiting.pop() else {
                return Ok(());
            };
            self.found.push(at)?;
            if let Some(users) = users.get(at) {
                for user in users.as_slice() {
                    self.reach(*user)?;
                }
            }
        }
        Ok(())
    }
}

/// The ranks. From the last declaration of the order on, those that lead to one another are found together, users before what they use.
fn ranks_of(alloc: Global, order: &[usize], users: &[Vec<usize>]) -> Result<Vec<usize>, NoMemory> {
    let mut flood = Flood::new(alloc, users.len())?;
    let mut ranks = Vec::new(alloc);
    for _ in users {
        ranks.push(0)?;
    }
    for root in order.iter().rev() {
        let first = flood.found.len();
        flood.fill(*root, users)?;
        for at in flood.found.iter().skip(first) {
            if let Some(rank) = ranks.get_mut(*at) {
                *rank = users.len().saturating_sub(first);
            }
        }
    }
    Ok(ranks)
}

/// Walks over all declarations.
fn walk_all(walk: &mut Walk, edges: &[Vec<usize>]) -> Result<(), NoMemory> {
    let mut root: usize = 0;
    for _ in 0..steps(edges) {
        match walk.stack.pop() {
            Some(frame) => walk.go_on(frame, edges)?,
            None => {
                if root >= edges.len() {
                    return Ok(());
                }
                walk.enter(root)?;
                root += 1;
            }
        }
    }
    Ok(())
}
