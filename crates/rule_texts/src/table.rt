//! The rules and their words.

/// What a refusal of one name means.
#[derive(Clone, Copy, Debug)]
pub struct Explanation {
    /// The name, as in the line of the refusal.
    pub rule: &'static str,
    /// Five lines: the name with the word before it in the refusal, one sentence, the sections of C++14 (ISO/IEC 14882:2014) or of
    /// the TS (ISO/IEC TS 19841:2015) or "the profile" for a rule of txcc's own, a text that is refused, and the same mended.
    pub lines: &'static str,
}

/// The rules of the language.
pub(crate) const ILL_FORMED: [Explanation; 30] = [
    Explanation {
        rule: "UnknownName",
        lines: "Ill UnknownName\nThe name is not declared here, or only further on.\nC++14 3.4\nrefused: int main() { { int y = 1; } return y; }\naccepted: int main() { int y = 1; { y = 2; } return y; }\n",
    },
    Explanation {
        rule: "Redeclared",
        lines: "Ill Redeclared\nThe name stands for something else in this scope already, or it is defined a second time.\nC++14 3.3.1, 3.2\nrefused: int x; int x; int main() { return 0; }\naccepted: extern int x; int x; int main() { return 0; }\n",
    },
    Explanation {
        rule: "TypeDiffers",
        lines: "Ill TypeDiffers\nTwo declarations of the name have types that do not agree.\nC++14 3.5 p10, 7.1.6.4 p8\nrefused: int f(); long f(); int main() { return 0; }\naccepted: int f(); long f(int); int main() { return 0; }\n",
    },
    Explanation {
        rule: "SafetyDiffers",
        lines: "Ill SafetyDiffers\nTwo declarations of a function differ in transaction_safe alone; all of them have it or none.\nthe TS, [dcl.fct]\nrefused: void f() transaction_safe; void f() {} int main() { return 0; }\naccepted: void f() transaction_safe; void f() transaction_safe {} int main() { return 0; }\n",
    },
    Explanation {
        rule: "BadDeclaration",
        lines: "Ill BadDeclaration\nNothing can be declared like this: a variable of type void, an array without a bound, a constructor of another class, and the like.\nC++14 clauses 7, 8, 9\nrefused: int main() { int a[]; return 0; }\naccepted: int main() { int a[] = {1, 2}; return 0; }\n",
    },
    Explanation {
        rule: "NotConstant",
        lines: "Ill NotConstant\nA bound, a label, an enumerator or the first value of a global has to be constant, and this is not, or it traps.\nC++14 5.20; first values: the profile\nrefused: int n = 2; int a[n]; int main() { return 0; }\naccepted: const int n = 2; int a[n]; int main() { return 0; }\n",
    },
    Explanation {
        rule: "NoConversion",
        lines: "Ill NoConversion\nThe value has no conversion to the type that is wanted.\nC++14 clause 4\nrefused: int main() { int* p = 1; return 0; }\naccepted: int main() { int* p = 0; return 0; }\n",
    },
    Explanation {
        rule: "NoViable",
        lines: "Ill NoViable\nNo function of this name takes these arguments.\nC++14 13.3.2\nrefused: int f(int& r) { return r; } int main() { return f(1); }\naccepted: int f(const int& r) { return r; } int main() { return f(1); }\n",
    },
    Explanation {
        rule: "Ambiguous",
        lines: "Ill Ambiguous\nSeveral functions of this name take the arguments, and none is better than all others.\nC++14 13.3.3\nrefused: void f(int) {} void f(long) {} int main() { f(1u); return 0; }\naccepted: void f(int) {} void f(long) {} int main() { f(1); return 0; }\n",
    },
    Explanation {
        rule: "NotLvalue",
        lines: "Ill NotLvalue\nAn object is wanted here, and this is a value.\nC++14 3.10, 5.3.1, 5.17\nrefused: int main() { 1 = 2; return 0; }\naccepted: int main() { int a = 1; (a += 1) = 2; return 0; }\n",
    },
    Explanation {
        rule: "ConstTarget",
        lines: "Ill ConstTarget\nThe object that is changed is const.\nC++14 7.1.6.1\nrefused: int main() { const int a = 1; a = 2; return 0; }\naccepted: int main() { int a = 1; a = 2; return 0; }\n",
    },
    Explanation {
        rule: "BadOperand",
        lines: "Ill BadOperand\nThe operator has no meaning for an operand of this type.\nC++14 clause 5\nrefused: int main() { int a = 1; return *a; }\naccepted: int main() { int a = 1; int* p = &a; return *p; }\n",
    },
    Explanation {
        rule: "Incomplete",
        lines: "Ill Incomplete\nThe class is declared, but what it holds is not known here.\nC++14 3.9 p5\nrefused: struct S; S s; int main() { return 0; }\naccepted: struct S; S* p; int main() { return 0; }\n",
    },
    Explanation {
        rule: "AbstractObject",
        lines: "Ill AbstractObject\nNo object can be made of a class with a pure virtual function.\nC++14 10.4\nrefused: struct A { virtual void f() = 0; }; int main() { A a; return 0; }\naccepted: struct A { virtual void f() = 0; }; A* p; int main() { return 0; }\n",
    },
    Explanation {
        rule: "NoDefault",
        lines: "Ill NoDefault\nThe object has no initialiser, and its class no constructor without arguments.\nC++14 8.5 p7, 12.1\nrefused: struct S { S(int) {} }; int main() { S s; return 0; }\naccepted: struct S { S(int) {} S() {} }; int main() { S s; return 0; }\n",
    },
    Explanation {
        rule: "NoCopy",
        lines: "Ill NoCopy\nObjects of this class can't be copied or assigned like this: a member is const, or the object that is copied is volatile.\nC++14 12.8\nrefused: struct S { const int a; }; int main() { S s = {1}; S t = {2}; s = t; return 0; }\naccepted: struct S { int a; }; int main() { S s = {1}; S t = {2}; s = t; return 0; }\n",
    },
    Explanation {
        rule: "BadInit",
        lines: "Ill BadInit\nThe initialiser does not fit what it is for, or one is missing, as of a reference, a constant or auto.\nC++14 8.5, 12.6.2\nrefused: int main() { int& r; return 0; }\naccepted: int main() { int n = 1; int& r = n; return r; }\n",
    },
    Explanation {
        rule: "Narrowing",
        lines: "Ill Narrowing\nThe type does not hold every value of this initialiser, label or enumerator.\nC++14 8.5.4 p7, 5.20 p4\nrefused: int main() { char a[1] = {300}; return 0; }\naccepted: int main() { char a[1] = {100}; return 0; }\n",
    },
    Explanation {
        rule: "NoMember",
        lines: "Ill NoMember\nThe class or enum has no member of this name.\nC++14 3.4.3, 5.2.5\nrefused: struct S { int a; }; int main() { S s; return s.b; }\naccepted: struct S { int a; }; int main() { S s; s.a = 1; return s.a; }\n",
    },
    Explanation {
        rule: "NotCallable",
        lines: "Ill NotCallable\nWhat is called is neither a function nor a pointer to one, nor the object of a lambda.\nC++14 5.2.2\nrefused: int main() { int x = 1; return x(); }\naccepted: int f() { return 1; } int main() { int (*x)() = f; return x(); }\n",
    },
    Explanation {
        rule: "BadReturn",
        lines: "Ill BadReturn\nA value is returned where none is wanted, or none where one is; or two returns of a lambda have different types.\nC++14 6.6.3, 7.1.6.4\nrefused: void f() { return 1; } int main() { return 0; }\naccepted: int f() { return 1; } int main() { return 0; }\n",
    },
    Explanation {
        rule: "BadBreak",
        lines: "Ill BadBreak\nThere is no loop or switch around it that it could leave or go on with.\nC++14 6.6.1, 6.6.2\nrefused: int main() { break; return 0; }\naccepted: int main() { for (;;) { break; } return 0; }\n",
    },
    Explanation {
        rule: "BadThrow",
        lines: "Ill BadThrow\nValues of this type are not thrown; pointers are not.\nthe profile, after C++14 15.1\nrefused: int main() { throw \"text\"; }\naccepted: int main() { throw 't'; }\n",
    },
    Explanation {
        rule: "BadCatch",
        lines: "Ill BadCatch\nA handler of this type can't stand here: nothing of the type is thrown, or a handler of all stands before it.\nC++14 15.3; types: the profile\nrefused: int main() { try { } catch (...) { } catch (int) { } return 0; }\naccepted: int main() { try { } catch (int) { } catch (...) { } return 0; }\n",
    },
    Explanation {
        rule: "NotTriviallyCopyable",
        lines: "Ill NotTriviallyCopyable\nAn exception is carried out of a block by its bytes, so its class has to be trivially copyable.\nthe profile, after the TS, [stmt.tx]\nrefused: struct S { ~S() {} }; int main() { S s; throw s; }\naccepted: struct S { int a; }; int main() { S s; s.a = 1; throw s; }\n",
    },
    Explanation {
        rule: "Capture",
        lines: "Ill Capture\nThe lambda uses a local name that it does not capture, or captures what can't be captured.\nC++14 5.1.2\nrefused: int main() { int n = 1; auto f = []() { return n; }; return f(); }\naccepted: int main() { int n = 1; auto f = [n]() { return n; }; return f(); }\n",
    },
    Explanation {
        rule: "BadCase",
        lines: "Ill BadCase\nThe label does not stand directly in the body of a switch, or is for a value that has a label already.\nC++14 6.1, 6.4.2\nrefused: int main() { switch (1) { case 1: ; case 1: ; } return 0; }\naccepted: int main() { switch (1) { case 1: ; case 2: ; } return 0; }\n",
    },
    Explanation {
        rule: "JumpPastInit",
        lines: "Ill JumpPastInit\nGoing to this label would pass over the initialiser of a variable whose scope it is in.\nC++14 6.7 p3\nrefused: int main() { switch (1) { case 0: int x = 1; case 1: ; } return 0; }\naccepted: int main() { switch (1) { case 0: { int x = 1; } case 1: ; } return 0; }\n",
    },
    Explanation {
        rule: "BadMain",
        lines: "Ill BadMain\nmain is int main(), neither static nor inline.\nC++14 3.6.1; no parameters: the profile\nrefused: long main() { return 0; }\naccepted: int main() { return 0; }\n",
    },
    Explanation {
        rule: "OutOfProfile",
        lines: "Ill OutOfProfile\nC++14 has this, the subset of txcc does not.\nthe profile\nrefused: void* p; int main() { return 0; }\naccepted: int* p; int main() { return 0; }\n",
    },
];

/// The first two steps, the rules of overriding, the limits of a source, and why a part is unsafe.
pub(crate) const OTHERS: [Explanation; 21] = [
    Explanation {
        rule: "Lex",
        lines: "Lex\nAt this place no token begins, or a literal is not one that the language has.\nC++14 2.5, 2.14\nrefused: int main() { return 09; }\naccepted: int main() { return 011; }\n",
    },
    Explanation {
        rule: "Syntax",
        lines: "Syntax\nAt this place the text leaves the grammar: no unit of the language begins like this.\nC++14 annex A, the TS 6.9, 6.10\nrefused: int main() { return 0 }\naccepted: int main() { return 0; }\n",
    },
    Explanation {
        rule: "OverrideNothing",
        lines: "Override OverrideNothing\nA function with override or final overrides no virtual function, and is not virtual itself.\nC++14 10.3 p5, 9.2 p9\nrefused: struct A { void f() override {} }; int main() { return 0; }\naccepted: struct A { virtual void f() {} }; struct B : A { void f() override {} }; int main() { return 0; }\n",
    },
    Explanation {
        rule: "OverridesFinal",
        lines: "Override OverridesFinal\nThe function that is overridden is final.\nC++14 10.3 p4\nrefused: struct A { virtual void f() final {} }; struct B : A { void f() {} }; int main() { return 0; }\naccepted: struct A { virtual void f() {} }; struct B : A { void f() final {} }; int main() { return 0; }\n",
    },
    Explanation {
        rule: "BaseFinal",
        lines: "Override BaseFinal\nThe base class is final.\nC++14 clause 9 p3\nrefused: struct A final { }; struct B : A { }; int main() { return 0; }\naccepted: struct A { }; struct B final : A { }; int main() { return 0; }\n",
    },
    Explanation {
        rule: "ReturnDiffers",
        lines: "Override ReturnDiffers\nAn overrider returns another type than the function that it overrides.\nC++14 10.3 p7; no covariant types: the profile\nrefused: struct A { virtual int f() { return 1; } }; struct B : A { long f() { return 2; } }; int main() { return 0; }\naccepted: struct A { virtual int f() { return 1; } }; struct B : A { int f() { return 2; } }; int main() { return 0; }\n",
    },
    Explanation {
        rule: "LooserNoexcept",
        lines: "Override LooserNoexcept\nAn overrider of a noexcept function has to be noexcept.\nC++14 15.4 p5\nrefused: struct A { virtual void f() noexcept {} }; struct B : A { void f() {} }; int main() { return 0; }\naccepted: struct A { virtual void f() {} }; struct B : A { void f() noexcept {} }; int main() { return 0; }\n",
    },
    Explanation {
        rule: "DynamicOverSafe",
        lines: "Override DynamicOverSafe\nAn overrider of a transaction_safe function can't be transaction_safe_dynamic: its own overriders could be unsafe.\nthe TS, [class.virtual]\nrefused: struct A { virtual ~A() transaction_safe {} }; struct B : A { ~B() transaction_safe_dynamic {} }; int main() { return 0; }\naccepted: struct A { virtual ~A() transaction_safe {} }; struct B : A { ~B() transaction_safe {} }; int main() { return 0; }\n",
    },
    Explanation {
        rule: "DynamicNotVirtual",
        lines: "Override DynamicNotVirtual\nOnly a virtual function is transaction_safe_dynamic.\nthe TS, [class.virtual]\nrefused: void f() transaction_safe_dynamic {} int main() { return 0; }\naccepted: void f() transaction_safe {} int main() { return 0; }\n",
    },
    Explanation {
        rule: "JumpIntoBlock",
        lines: "JumpIntoBlock\nThe label stands inside a synchronized or atomic block of the switch, so going to it would enter the block in the middle.\nthe TS, [stmt.sync], [stmt.tx]\nrefused: int main() { switch (1) { case 0: synchronized { case 1: ; } } return 0; }\naccepted: int main() { synchronized { switch (1) { case 0: ; case 1: ; } } return 0; }\n",
    },
    Explanation {
        rule: "Size",
        lines: "Limit Size\nA type has more than 1,048,576 bytes, or a type's spelling, a symbol or the text of a definition has.\nC++14 annex B; the number: the profile\nrefused: long a[131073]; int main() { return 0; }\naccepted: long a[131072]; int main() { return 0; }\n",
    },
    Explanation {
        rule: "Frame",
        lines: "Limit Frame\nThe variables and temporaries of the function take more than 65,536 bytes.\nC++14 annex B; the number: the profile\nrefused: int main() { char a[40000]; char b[30000]; return 0; }\naccepted: int main() { char a[40000]; char b[20000]; return 0; }\n",
    },
    Explanation {
        rule: "Params",
        lines: "Limit Params\nA function has more than 64 parameters.\nC++14 annex B; the number: the profile\nrefused: void f(int, int, int, int, int, int, int, int, int, int, int, int, int, int, int, int, int, int, int, int, int, int, int, int, int, int, int, int, int, int, int, int, int, int, int, int, int, int, int, int, int, int, int, int, int, int, int, int, int, int, int, int, int, int, int, int, int, int, int, int, int, int, int, int, int) {} int main() { return 0; }\naccepted: void f(int, int, int, int, int, int, int, int, int, int, int, int, int, int, int, int, int, int, int, int, int, int, int, int, int, int, int, int, int, int, int, int, int, int, int, int, int, int, int, int, int, int, int, int, int, int, int, int, int, int, int, int, int, int, int, int, int, int, int, int, int, int, int, int) {} int main() { return 0; }\n",
    },
    Explanation {
        rule: "Exception",
        lines: "Limit Exception\nAn exception has more than 64 bytes.\nthe profile\nrefused: struct S { long a[9]; }; int main() { throw S(); }\naccepted: struct S { long a[8]; }; int main() { throw S(); }\n",
    },
    Explanation {
        rule: "VolatileRead",
        lines: "Unsafe VolatileRead\nA volatile object is read in an atomic block or in a function that is transaction_safe.\nthe TS, [dcl.fct.def.tx]\nrefused: volatile int v; int main() { int x; atomic_noexcept { x = v; } return 0; }\naccepted: volatile int v; int main() { int x = v; atomic_noexcept { x = 2; } return x; }\n",
    },
    Explanation {
        rule: "VolatileWrite",
        lines: "Unsafe VolatileWrite\nA volatile object is changed there, or an object with a volatile part is made, copied or assigned.\nthe TS, [dcl.fct.def.tx]\nrefused: volatile int v; int main() { atomic_noexcept { v = 1; } return 0; }\naccepted: volatile int v; int main() { synchronized { v = 1; } return 0; }\n",
    },
    Explanation {
        rule: "VolatileTemp",
        lines: "Unsafe VolatileTemp\nA temporary that is volatile, or has a volatile part, is made there.\nthe TS, [dcl.fct.def.tx]\nrefused: struct S { volatile int m; }; int main() { atomic_noexcept { S(); } return 0; }\naccepted: struct S { int m; }; int main() { atomic_noexcept { S(); } return 0; }\n",
    },
    Explanation {
        rule: "VolatileLocal",
        lines: "Unsafe VolatileLocal\nA variable that is volatile, or has a volatile part, is declared there.\nthe TS, [dcl.fct.def.tx]\nrefused: int main() { atomic_noexcept { volatile int x; } return 0; }\naccepted: int main() { volatile int x; atomic_noexcept { volatile int* p = &x; } return 0; }\n",
    },
    Explanation {
        rule: "VolatileParam",
        lines: "Unsafe VolatileParam\nA function that is transaction_safe has a parameter that is volatile or has a volatile part.\nthe TS, [dcl.fct.def.tx]\nrefused: void f(volatile int a) transaction_safe {} int main() { return 0; }\naccepted: void f(volatile int& a) transaction_safe {} int main() { return 0; }\n",
    },
    Explanation {
        rule: "CallsUnsafe",
        lines: "Unsafe CallsUnsafe\nA function is called there, by name or implicitly, that is neither declared safe nor has a safe definition before this place.\nthe TS, [dcl.fct.def.tx], [class.virtual]\nrefused: int main() { atomic_noexcept { putchar('a'); } return 0; }\naccepted: int main() { synchronized { putchar('a'); } return 0; }\n",
    },
    Explanation {
        rule: "CallsUnsafePointer",
        lines: "Unsafe CallsUnsafePointer\nA call goes through a pointer there whose type is not that of a safe function.\nthe TS, [dcl.fct.def.tx]\nrefused: int f() { return 1; } int main() { int (*p)() = f; atomic_noexcept { p(); } return 0; }\naccepted: int f() transaction_safe { return 1; } int main() { int (*p)() transaction_safe = f; atomic_noexcept { p(); } return 0; }\n",
    },
];
