//! Syntax trees of ECMA-262 5.1 annex A.3 to A.5. A clause sees an `Expr`, a `Stmt`, a `Code` or a `Script` as the pure
//! tree of `specs/Tree.antt`. No tree is higher than 1,000, and each keeps its height (`specs/Height.antt`).

use crate::height::stmts_height;
use crate::operators::{BinaryOp, UnaryOp};
use crate::units::Units;
use crate::whole::Whole;
use std::marker::Model;
use std::rc::Rc;

/// An expression (section 11), made by `Expr::new`.
#[cycle(syntax)]
pub struct Expr {
    pub node: ExprNode,
    height: u64,
}

/// The kinds of expressions. Parentheses make no node.
#[cycle(syntax)]
#[derive(Drop)]
pub enum ExprNode {
    Name(Units),
    Num(Whole),
    Text(Units),
    Bool(bool),
    Null,
    This,
    /// An array literal; `None` is an absent element.
    List(Vec<Option<Expr>>),
    /// An object literal.
    Literal(Vec<(Units, Expr)>),
    Func(Rc<Code>),
    Member(Box<Expr>, Units),
    Index(Box<Expr>, Box<Expr>),
    Call(Box<Expr>, Vec<Expr>),
    New(Box<Expr>, Vec<Expr>),
    Unary(UnaryOp, Box<Expr>),
    /// `++` where `up`, else `--`, before its target where `prefix`, else after it.
    Update {
        up: bool,
        prefix: bool,
        target: Box<Expr>,
    },
    Binary(BinaryOp, Box<Expr>, Box<Expr>),
    And(Box<Expr>, Box<Expr>),
    Or(Box<Expr>, Box<Expr>),
    Cond(Box<Expr>, Box<Expr>, Box<Expr>),
    /// `None` is `=`, an operator its compound assignment.
    Assign(Option<BinaryOp>, Box<Expr>, Box<Expr>),
    /// Two or more parts.
    Comma(Vec<Expr>),
}

/// A function's name, formals and body (section 13), made by `Code::new`.
#[cycle(syntax)]
pub struct Code {
    pub name: Option<Units>,
    pub formals: Vec<Units>,
    pub body: Vec<Stmt>,
    height: u64,
}

/// A name that a `var` declares, with its initialiser.
#[cycle(syntax)]
pub struct Declarator {
    pub name: Units,
    pub value: Option<Expr>,
}

/// What stands first in the header of a `for`.
#[cycle(syntax)]
pub enum ForInit {
    Nothing,
    Var(Vec<Declarator>),
    Expr(Expr),
}

/// A clause of a `switch`; `None` is `default`.
#[cycle(syntax)]
pub struct Case {
    pub test: Option<Expr>,
    pub body: Vec<Stmt>,
}

/// The catch clause of a `try`.
#[cycle(syntax)]
pub struct Catch {
    pub name: Units,
    pub body: Vec<Stmt>,
}

/// A statement (section 12), or a function declaration, made by `Stmt::new`.
#[cycle(syntax)]
pub struct Stmt {
    pub node: StmtNode,
    height: u64,
}

/// An `if` (section 12.5); `second` is what stands after `else`.
#[cycle(syntax)]
pub struct If {
    pub test: Expr,
    pub first: Vec<Stmt>,
    pub second: Option<Vec<Stmt>>,
}

/// A `for` without `in` (section 12.6.3).
#[cycle(syntax)]
pub struct For {
    pub init: ForInit,
    pub test: Option<Expr>,
    pub step: Option<Expr>,
    pub body: Vec<Stmt>,
}

/// A `try` (section 12.14); `last` is the `finally`.
#[cycle(syntax)]
pub struct Try {
    pub block: Vec<Stmt>,
    pub catch: Option<Catch>,
    pub last: Option<Vec<Stmt>>,
}

/// The kinds of statements. The body of an `If`, `Do`, `While`, `For` or `ForIn` is a block's list, or the one
/// statement that stood there. What is larger than an expression stands in a box, so that a short statement takes
/// no more room than that.
#[cycle(syntax)]
#[derive(Drop)]
pub enum StmtNode {
    Var(Vec<Declarator>),
    Function(Rc<Code>),
    Expr(Expr),
    Empty,
    Block(Vec<Stmt>),
    If(Box<If>),
    Do(Vec<Stmt>, Box<Expr>),
    While(Box<Expr>, Vec<Stmt>),
    For(Box<For>),
    /// A declared target is a `Name`.
    ForIn {
        declared: bool,
        target: Box<Expr>,
        object: Box<Expr>,
        body: Vec<Stmt>,
    },
    Continue,
    Break,
    Return(Option<Expr>),
    Throw(Expr),
    Try(Box<Try>),
    Switch(Box<Expr>, Vec<Case>),
}

/// A program (section 14).
pub struct Script {
    pub body: Vec<Stmt>,
}

impl Model for Expr {
    ghost use Rattle.js_core.specs.Tree as tree;
    ghost use Rattle.js_core.specs.Codes.{coded_expr};

    ghost Value = { tree.Expr };

    ghost coded = { coded_expr };

    ghost use Rattle.js_core.specs.Sizes.{expr_size};
    ghost use Rattle.js_core.specs.Views.{expr_of};

    ghost view = { λ e. expr_of e.node };

    ghost use Rattle.std.specs.Prelude.{◌≡◌, ◌≤◌};
    ghost use Rattle.js_core.specs.Height.{expr_height};

    ghost invariant = { λ e. (expr_height (expr_of e.node) ≡ e.height) × (e.height ≤ 1000) };

    ghost size = { expr_size };

    ghost use Rattle.js_core.specs.Falls.{expr_falls};

    ghost size_decreases = { λ a h. expr_falls a.node };
}

impl Model for Code {
    ghost use Rattle.js_core.specs.Tree as tree;
    ghost use Rattle.js_core.specs.Codes.{coded_code};

    ghost Value = { tree.Code };

    ghost coded = { coded_code };

    ghost use Rattle.js_core.specs.Sizes.{code_size};
    ghost use Rattle.js_core.specs.Tree.{code, stmts_of};

    ghost view = { λ c. code c.name c.formals.items (stmts_of c.body.items) };

    ghost use Rattle.std.specs.Prelude.{◌≡◌, ◌≤◌};
    ghost use Rattle.js_core.specs.Height.{stmts_height};

    ghost invariant = { λ c.
        (stmts_height (stmts_of c.body.items) ≡ c.height) × (c.height ≤ 1000) };

    ghost size = { code_size };

    ghost use Rattle.js_core.specs.Falls.{code_falls};

    ghost size_decreases = { λ a h. code_falls a };
}

impl Model for Stmt {
    ghost use Rattle.js_core.specs.Tree as tree;
    ghost use Rattle.js_core.specs.Codes.{coded_stmt};

    ghost Value = { tree.Stmt };

    ghost coded = { coded_stmt };

    ghost use Rattle.js_core.specs.Sizes.{stmt_size};
    ghost use Rattle.js_core.specs.Views.{stmt_of};

    ghost view = { λ s. stmt_of s.node };

    ghost use Rattle.std.specs.Prelude.{◌≡◌, ◌≤◌};
    ghost use Rattle.js_core.specs.Height.{stmt_height};

    ghost invariant = { λ s. (stmt_height (stmt_of s.node) ≡ s.height) × (s.height ≤ 1000) };

    ghost size = { stmt_size };

    ghost use Rattle.js_core.specs.Falls.{stmt_falls};

    ghost size_decreases = { λ a h. stmt_falls a.node };
}

// Functions of their own, so that the crates above cite them and do not prove them again.
impl Drop for Expr {
    #[cycle(dropping)]
    fn drop(self) {
        let Expr {
            node: _node,
            height: _height,
        } = self;
    }
}

impl Drop for Stmt {
    #[cycle(dropping)]
    fn drop(self) {
        let Stmt {
            node: _node,
            height: _height,
        } = self;
    }
}

impl Drop for Code {
    #[cycle(dropping)]
    fn drop(self) {
        let Code {
            name: _name,
            formals: _formals,
            body: _body,
            height: _height,
        } = self;
    }
}

impl Drop for Declarator {
    #[cycle(dropping)]
    fn drop(self) {
        let Declarator {
            name: _name,
            value: _value,
        } = self;
    }
}

impl Drop for ForInit {
    #[cycle(dropping)]
    fn drop(self) {
        match self {
            ForInit::Nothing => (),
            ForInit::Var(_declarators) => (),
            ForInit::Expr(_value) => (),
        }
    }
}

impl Drop for Case {
    #[cycle(dropping)]
    fn drop(self) {
        let Case {
            test: _test,
            body: _body,
        } = self;
    }
}

impl Drop for Catch {
    #[cycle(dropping)]
    fn drop(self) {
        let Catch {
            name: _name,
            body: _body,
        } = self;
    }
}

impl Drop for If {
    #[cycle(dropping)]
    fn drop(self) {
        let If {
            test: _test,
            first: _first,
            second: _second,
        } = self;
    }
}

impl Drop for For {
    #[cycle(dropping)]
    fn drop(self) {
        let For {
            init: _init,
            test: _test,
            step: _step,
            body: _body,
        } = self;
    }
}

impl Drop for Try {
    #[cycle(dropping)]
    fn drop(self) {
        let Try {
            block: _block,
            catch: _catch,
            last: _last,
        } = self;
    }
}

impl Drop for Script {
    fn drop(self) {
        let Script { body: _body } = self;
    }
}

impl Model for Script {
    ghost use Rattle.js_core.specs.Tree as tree;
    ghost use Rattle.js_core.specs.Codes.{coded_stmts};

    ghost Value = { tree.Stmts };

    ghost coded = { coded_stmts };

    ghost use Rattle.js_core.specs.Tree.{stmts_of};

    ghost view = { λ s. stmts_of s.body.items };

    ghost use Rattle.std.specs.Prelude.{◌≤◌};
    ghost use Rattle.js_core.specs.Height.{stmts_height};

    ghost invariant = { λ s. stmts_height (stmts_of s.body.items) ≤ 1000 };
}

impl Script {
    ghost use Rattle.std.specs.Prelude.{◌≡◌};
    ghost use Rattle.js_core.specs.Tree.{stmts_of};

    /// The statements of the program, without memory.
    pub fn into_body(self) -> Vec<Stmt>
        ensures { stmts_of result.items ≡ self }
    {
        let Script { body } = self;
        body
    }
}

impl Declarator {
    ghost use Rattle.std.specs.Prelude.{◌≡◌};

    /// The name and the initialiser, without memory.
    pub fn into_parts(self) -> (Units, Option<Expr>)
        ensures { result ≡ (self.name, self.value) }
    {
        let Declarator { name, value } = self;
        (name, value)
    }
}

impl Expr {
    ghost use Rattle.std.specs.Prelude.{◌≡◌, ◌≤◌};
    ghost use Rattle.js_core.specs.Height.{expr_height};
    ghost use Rattle.js_core.specs.Views.{expr_of};

    /// The expression with this node. The time is that of its direct parts.
    pub fn new(node: ExprNode) -> Expr
        requires { expr_height (expr_of node) ≤ 1000 }
        ensures { result ≡ expr_of node }
    {
        let height = node.height();
        Expr { node, height }
    }

    /// The height of the expression, which is kept. No memory.
    pub fn height(&self) -> u64
        ensures exact { result ≡ expr_height self.now }
        ensures small { expr_height self.now ≤ 1000 }
    {
        self.height
    }
}

impl Code {
    ghost use Rattle.std.specs.Prelude.{◌≡◌, ◌≤◌};
    ghost use Rattle.js_core.specs.Height.{code_height};
    ghost use Rattle.js_core.specs.Tree.{code, stmts_of};

    /// The function with this name, these formals and this body. The time is that of the body's statements.
    pub fn new(name: Option<Units>, formals: Vec<Units>, body: Vec<Stmt>) -> Code
        ensures { result ≡ code name formals.items (stmts_of body.items) }
    {
        let height = stmts_height(body.as_slice());
        Code {
            name,
            formals,
            body,
            height,
        }
    }

    /// The height of the highest statement of the body, or 0 where there is none, which is kept. No memory.
    pub fn height(&self) -> u64
        ensures exact { result ≡ code_height self.now }
        ensures small { code_height self.now ≤ 1000 }
    {
        self.height
    }
}

impl Stmt {
    ghost use Rattle.std.specs.Prelude.{◌≡◌, ◌≤◌};
    ghost use Rattle.js_core.specs.Height.{stmt_height};
    ghost use Rattle.js_core.specs.Views.{stmt_of};

    /// The statement with this node. The time is that of its direct parts.
    pub fn new(node: StmtNode) -> Stmt
        requires { stmt_height (stmt_of node) ≤ 1000 }
        ensures { result ≡ stmt_of node }
    {
        let height = node.height();
        Stmt { node, height }
    }

    /// The node of the statement, without memory.
    pub fn into_node(self) -> StmtNode
        ensures { stmt_of result ≡ self }
    {
        let Stmt {
            node,
            height: _height,
        } = self;
        node
    }

    /// The height of the statement, which is kept. No memory.
    pub fn height(&self) -> u64
        ensures exact { result ≡ stmt_height self.now }
        ensures small { stmt_height self.now ≤ 1000 }
    {
        self.height
    }
}
