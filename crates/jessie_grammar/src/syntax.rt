//! The trees of a module of the contract language, where what brackets don't count is a list.
use host_text::text::Text;
use sqlite_items::{Boxed, Items};

/// A literal. It holds no object and no function.
pub enum Literal {
    Number(i128),
    Text(Text),
    Bool(bool),
    Null,
}

impl Drop for Literal {
    fn drop(self) {
        match self {
            Literal::Number(_) => {}
            Literal::Text(_) => {}
            Literal::Bool(_) => {}
            Literal::Null => {}
        }
    }
}

/// What a state variable can hold at first. A negative number is a literal.
#[derive(Drop)]
pub enum Constant {
    Literal(Literal),
    Array(Items<Constant>),
    /// A record: its fields in the text's order.
    Record(Items<(Text, Constant)>),
}

/// A function of the language itself.
#[derive(Clone, Copy)]
pub enum BuiltIn {
    When,
    Far,
    Harden,
    Keys,
    Len,
    Push,
    Put,
}

/// An operator before an expression: `!` or `-`.
#[derive(Clone, Copy)]
pub enum Unary {
    Not,
    Negate,
}

/// An operator between two expressions: `||`, `&&`, `===`, `!==`, `<`, `<=`, `>`, `>=`, `+`, `-`, `*`,
/// `/`, `%`.
#[derive(Clone, Copy)]
pub enum Operator {
    Or,
    And,
    Equal,
    Unequal,
    Less,
    AtMost,
    Greater,
    AtLeast,
    Add,
    Subtract,
    Multiply,
    Divide,
    Remainder,
}

/// An expression.
#[derive(Drop)]
#[cycle(expression)]
pub enum Expr {
    Literal(Literal),
    /// A name that is read.
    Name(Text),
    /// A call of a function of the module, by its name: `name(arguments)`.
    Call(Text, Items<Expr>),
    /// A call of a function of the language, with its arguments as written.
    BuiltIn(BuiltIn, Items<Expr>),
    /// `AmountMath.name(arguments)`, whatever the name.
    AmountMath(Text, Items<Expr>),
    /// `E(target).name(arguments)`
    Send(Boxed<Expr>, Text, Items<Expr>),
    Array(Items<Expr>),
    /// A record: its fields in the text's order. A field without an expression of its own reads the
    /// name.
    Record(Items<(Text, Expr)>),
    /// What stands before the accesses, and the accesses behind it, one or more.
    Accesses(Boxed<Expr>, Items<Access>),
    Unary(Unary, Boxed<Expr>),
    /// A first operand, and one or more operators of one level with the operand behind each.
    Chain(Boxed<Expr>, Items<(Operator, Expr)>),
    /// `condition ? first : second`
    Choice(Boxed<Expr>, Boxed<Expr>, Boxed<Expr>),
}

/// An access behind an expression: to a field, a method or a part.
#[derive(Drop)]
#[cycle(expression)]
pub enum Access {
    /// `.name`
    Field(Text),
    /// A call of a method of an object: `.name(arguments)`.
    Method(Text, Items<Expr>),
    /// `[index]`
    Index(Expr),
}

/// A statement.
#[derive(Drop)]
#[cycle(statement)]
pub enum Stmt {
    /// `const name = value;`
    Const(Text, Expr),
    /// `let name = value;`
    Let(Text, Expr),
    /// `name = value;`
    Assign(Text, Expr),
    /// The branches of an if and its else-ifs, and the block of its else, empty where there is none.
    If(Items<Branch>, Items<Stmt>),
    While(Expr, Items<Stmt>),
    /// `for (const name of values) body`
    ForOf(Text, Expr, Items<Stmt>),
    /// `return value;` or `return;`
    Return(Option<Expr>),
    Throw(Expr),
    /// `try body catch (name) handler`
    Try(Items<Stmt>, Text, Items<Stmt>),
    /// `value;`
    Run(Expr),
}

/// A condition, and the block that it is of.
#[derive(Drop)]
#[cycle(statement)]
pub struct Branch {
    pub condition: Expr,
    pub body: Items<Stmt>,
}

/// A function of the module.
pub struct Function {
    pub name: Text,
    pub params: Items<Text>,
    pub body: Items<Stmt>,
}

impl Drop for Function {
    fn drop(self) {
        let Function {
            name: _,
            params: _,
            body: _,
        } = self;
    }
}

/// A state variable, and what it holds before the module has run.
pub struct Variable {
    pub name: Text,
    pub initial: Constant,
}

impl Drop for Variable {
    fn drop(self) {
        let Variable {
            name: _,
            initial: _,
        } = self;
    }
}

/// A module: its state variables and its functions, each in the text's order.
pub struct Module {
    pub variables: Items<Variable>,
    pub functions: Items<Function>,
}

impl Drop for Module {
    fn drop(self) {
        let Module {
            variables: _,
            functions: _,
        } = self;
    }
}
