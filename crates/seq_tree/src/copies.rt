ghost use Rattle.std.specs.Prelude.{◌≡◌, IfOk, map, option_map};
ghost use Rattle.seq_tree.specs.Trees.{arm_of, block_of, expression_of, operation_of, signature_of, statement_of};

use crate::memory::NoMemory;
use crate::tree::{Arm, Block, Datum, Expr, OpSig, OpText, Param, Stmt};
use std::alloc::Global;

impl Datum {
    /// An equal variable with an equal value.
    pub fn copy(&self, alloc: Global) -> Result<Datum, NoMemory>
        ensures { IfOk result (λ d. d ≡ self.now) }
    {
        let name = self.name.copy(alloc)?;
        Ok(Datum {
            name,
            value: self.value,
        })
    }
}

impl Param {
    /// An equal parameter.
    pub fn copy(&self, alloc: Global) -> Result<Param, NoMemory>
        ensures { IfOk result (λ p. p ≡ self.now) }
    {
        let name = self.name.copy(alloc)?;
        Ok(Param {
            name,
            mode: self.mode,
        })
    }
}

impl OpSig {
    /// A head with an equal name and equal parameters.
    pub fn copy(&self, alloc: Global) -> Result<OpSig, NoMemory>
        ensures { IfOk result (λ s. signature_of s ≡ signature_of self.now) }
    {
        let name = self.name.copy(alloc)?;
        let mut params = Vec::new(alloc);
        'params: for param in &self.params {
            params.push(param.copy(alloc)?)?;
        }
        Ok(OpSig { name, params })
    }
}

impl Expr {
    /// An expression with an equal tree.
    pub fn copy(&self, alloc: Global) -> Result<Expr, NoMemory>
        ensures { IfOk result (λ e. expression_of e ≡ expression_of self.now) }
    {
        match self {
            Expr::Number(n) => Ok(Expr::Number(*n)),
            Expr::Variable(name) => Ok(Expr::Variable(name.copy(alloc)?)),
            Expr::Paren(inner) => Ok(Expr::Paren(Box::new(alloc, inner.copy(alloc)?)?)),
            Expr::Not(inner) => Ok(Expr::Not(Box::new(alloc, inner.copy(alloc)?)?)),
            Expr::Binary(op, left, right) => {
                let left = Box::new(alloc, left.copy(alloc)?)?;
                let right = Box::new(alloc, right.copy(alloc)?)?;
                Ok(Expr::Binary(*op, left, right))
            }
        }
    }
}

/// Expressions with equal trees.
fn copy_all(alloc: Global, exprs: &[Expr]) -> Result<Vec<Expr>, NoMemory>
    ensures { IfOk result (λ v. map expression_of v.items ≡ map expression_of exprs.now) }
{
    let mut copies = Vec::new(alloc);
    'exprs: for expr in exprs {
        copies.push(expr.copy(alloc)?)?;
    }
    Ok(copies)
}

impl Arm {
    /// An arm with an equal tree.
    #[cycle(copies)]
    fn copy(&self, alloc: Global) -> Result<Arm, NoMemory>
        ensures { IfOk result (λ a. arm_of a ≡ arm_of self.now) }
    {
        let cond = self.cond.copy(alloc)?;
        let block = self.block.copy(alloc)?;
        Ok(Arm { cond, block })
    }
}

/// Arms with equal trees.
#[cycle(copies)]
fn copy_arms(alloc: Global, arms: &[Arm]) -> Result<Vec<Arm>, NoMemory>
    ensures { IfOk result (λ v. map arm_of v.items ≡ map arm_of arms.now) }
{
    let mut copies = Vec::new(alloc);
    'arms: for arm in arms {
        copies.push(arm.copy(alloc)?)?;
    }
    Ok(copies)
}

/// An `else` with an equal tree, where there is one.
#[cycle(copies)]
fn copy_other(alloc: Global, other: &Option<Block>) -> Result<Option<Block>, NoMemory>
    ensures { IfOk result (λ o. option_map block_of o ≡ option_map block_of other.now) }
{
    match other {
        None => Ok(None),
        Some(block) => Ok(Some(block.copy(alloc)?)),
    }
}

impl Stmt {
    /// A statement with an equal tree.
    #[cycle(copies)]
    fn copy(&self, alloc: Global) -> Result<Stmt, NoMemory>
        ensures { IfOk result (λ s. statement_of s ≡ statement_of self.now) }
    {
        match self {
            Stmt::Null => Ok(Stmt::Null),
            Stmt::Assign { target, value } => Ok(Stmt::Assign {
                target: target.copy(alloc)?,
                value: value.copy(alloc)?,
            }),
            Stmt::If { arms, other } => Ok(Stmt::If {
                arms: Box::new(alloc, copy_arms(alloc, arms)?)?,
                other: copy_other(alloc, other)?,
            }),
            Stmt::For {
                name,
                low,
                high,
                body,
            } => Ok(Stmt::For {
                name: name.copy(alloc)?,
                low: *low,
                high: *high,
                body: body.copy(alloc)?,
            }),
            Stmt::ExitWhen(condition) => Ok(Stmt::ExitWhen(condition.copy(alloc)?)),
            Stmt::Call {
                object,
                op,
                actuals,
            } => Ok(Stmt::Call {
                object: object.copy(alloc)?,
                op: op.copy(alloc)?,
                actuals: copy_all(alloc, actuals)?,
            }),
            Stmt::Work(ticks) => Ok(Stmt::Work(*ticks)),
            Stmt::Put(value) => Ok(Stmt::Put(value.copy(alloc)?)),
        }
    }
}

impl Block {
    /// A block with an equal tree.
    #[cycle(copies)]
    pub fn copy(&self, alloc: Global) -> Result<Block, NoMemory>
        ensures { IfOk result (λ b. block_of b ≡ block_of self.now) }
    {
        let mut stmts = Vec::new(alloc);
        'stmts: for stmt in &self.stmts {
            stmts.push(stmt.copy(alloc)?)?;
        }
        Ok(Block { stmts })
    }
}

impl OpText {
    /// An operation with an equal head, equal locals and a body with an equal tree.
    pub fn copy(&self, alloc: Global) -> Result<OpText, NoMemory>
        ensures { IfOk result (λ o. operation_of o ≡ operation_of self.now) }
    {
        let sig = self.sig.copy(alloc)?;
        let mut locals = Vec::new(alloc);
        'locals: for local in &self.locals {
            locals.push(local.copy(alloc)?)?;
        }
        let block = self.block.copy(alloc)?;
        Ok(OpText { sig, locals, block })
    }
}
