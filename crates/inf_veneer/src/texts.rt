//! The texts of the veneer's routines, each of which is a line of a file of its own.
ghost use Rattle.std.specs.Prelude.{◌≡◌, map, option_copied};
ghost use Rattle.inf_veneer.specs.Texts.{all_names, all_texts, name_of, text_of};

/// The number of routines.
pub const COUNT: usize = 23;

#[rattlefmt::skip]
const TEXTS: [&[u8]; COUNT] = [
    b"[R_Process a n s;print \"<\",a,\" \",n,\" \",s,\">^\";];",
    b"[DefArt o;print \"the \";PrintShortName(o);];",
    b"[InDefArt o;print \"a \";PrintShortName(o);];",
    b"[CDefArt o;print \"The \";PrintShortName(o);];",
    b"[PrintShortName o;if(Z__Region(o)==1)print (object) o;else print o;];",
    b"[EnglishNumber n;print n;];",
    b"[AP__Va o p d k v;v=o.p;WV__Pr(o,p,v+d);if(k)return v+d;return v;];",
    b"[CA__Pr o p a b c d e x s t;x=o.p;if(Z__Region(x)==3)print_ret (string) x;if(Z__Region(x)~=2)return x;s=self;\
      t=sender;sender=self;self=o;#Ifdef action;sw__var=action;#Endif;x=x(a,b,c,d,e);self=s;sender=t;return x;];",
    b"[WV__Pr o p v a;a=o.&p;if(a)a-->0=v;return v;];",
    b"[RV__Pr o p a;if(p<64){@get_prop o p->a;return a;}a=CP__Tab(o,p);if(a==0)rfalse;return (a+1)-->0;];",
    b"[RL__Pr o p a;if(p<64){@get_prop_addr o p->a;if(a==0)rfalse;@get_prop_len a->a;return a;}a=CP__Tab(o,p);\
      if(a)return a->0;rfalse;];",
    b"[OP__Pr o p;return RA__Pr(o,p)~=0;];",
    b"[RA__Pr o p a;if(p<64){@get_prop_addr o p->a;return a;}a=CP__Tab(o,p);if(a)return a+1;rfalse;];",
    b"[CP__Tab o p a;@get_prop_addr o 3->a;if(a==0)rfalse;a=a-->0;while(a-->0){if(a-->0==p)return a+2;a=a+3+a->2;\
      }rfalse;];",
    b"[OC__Cl o c a n i;i=Z__Region(o);if(i==0)rfalse;if(i>1)return c==i+1;n=parent(o)==1||o<5;if(c==1)return n;\
      if(c==2)return n==0;@get_prop_addr o 2->a;if(a==0)rfalse;@get_prop_len a->n;n=n/2;\
      for(i=0:i<n:i++)if(a-->i==c)rtrue;rfalse;];",
    b"[Z__Region x;if(x==0)rfalse;if(Unsigned__Compare(x,#highest_object_number)<=0)return 1;\
      if(Unsigned__Compare(x,#strings_offset)>=0)return 3;if(Unsigned__Compare(x,#code_offset)>=0)return 2;rfalse;];",
    b"[Unsigned__Compare x y;if(x==y)return 0;if(x<0&&y>=0)return 1;if(x>=0&&y<0)return -1;if(x>y)return 1;\
      return -1;];",
    b"[Ch__Ln o n;o=child(o);while(o){n++;o=sibling(o);}return n;];",
    b"[Sp__Pr n;while(n>0){print \" \";n--;}];",
    b"[SB__Va a i v;a->i=v;return v;];",
    b"[SW__Va a i v;a-->i=v;return v;];",
    b"[AB__Va a i d k v;v=a->i;a->i=v+d;if(k)return v+d;return v;];",
    b"[AW__Va a i d k v;v=a-->i;a-->i=v+d;if(k)return v+d;return v;];",
];

const NAMES: [&[u8]; COUNT] = [
    b"R_Process",
    b"DefArt",
    b"InDefArt",
    b"CDefArt",
    b"PrintShortName",
    b"EnglishNumber",
    b"AP__Va",
    b"CA__Pr",
    b"WV__Pr",
    b"RV__Pr",
    b"RL__Pr",
    b"OP__Pr",
    b"RA__Pr",
    b"CP__Tab",
    b"OC__Cl",
    b"Z__Region",
    b"Unsigned__Compare",
    b"Ch__Ln",
    b"Sp__Pr",
    b"SB__Va",
    b"SW__Va",
    b"AB__Va",
    b"AW__Va",
];

/// Returns all texts.
#[tactic(auto, unfolding(crate::specs::Texts::all_texts))]
fn texts() -> &'static [&'static [u8]]
    ensures { map (λ t. t.now) result.now ≡ all_texts }
{
    &TEXTS
}

/// Returns all names.
#[tactic(auto, unfolding(crate::specs::Texts::all_names))]
fn names() -> &'static [&'static [u8]]
    ensures { map (λ t. t.now) result.now ≡ all_names }
{
    &NAMES
}

/// Gives the Inform text of the routine with the number `n`, counted from 1 in the order in which the routines are supplied; nothing
/// for 0 and behind the last of the 23.
///
/// A text of a routine names routines behind it alone.
pub fn veneer(n: usize) -> Option<&'static [u8]>
    ensures { option_copied result ≡ text_of n }
{
    let at = n.checked_sub(1)?;
    texts().get(at).copied()
}

/// Gives the name of the routine with the number `n`, counted as `veneer` counts; nothing for 0 and behind the last.
pub fn veneer_name(n: usize) -> Option<&'static [u8]>
    ensures { option_copied result ≡ name_of n }
{
    let at = n.checked_sub(1)?;
    names().get(at).copied()
}
